// Reading lines of which at most 6 bytes are kept, the end byte included. The expected lines were worked out by hand.
use json_lines::next_line;
use std::alloc::Global;
use std::io::BufReader;
use std::test::Fail;

// Returns the lines that are read from an input, at most 6 bytes of each, with '|' after each. The reader requests `capacity` bytes at a
// time.
fn lines(alloc: Global, input: &str, capacity: usize) -> Result<Vec<u8>, Fail> {
    let mut reader = BufReader::with_capacity(alloc, capacity, input.as_bytes())?;
    let mut line = Vec::new(alloc);
    let mut all = Vec::new(alloc);
    for _ in 0..20 {
        if !next_line(&mut reader, 6, &mut line)? {
            break;
        }
        all.extend_from_slice(&line)?;
        all.push(b'|')?;
    }
    Ok(all)
}

// Inputs, and the lines that are read from them.
const LINES: [(&str, &str); 16] = [
    ("", ""),
    ("\n", "|"),
    ("\n\n", "||"),
    ("ab\ncd\n", "ab|cd|"),
    ("ab\ncd", "ab|cd|"),
    // As many bytes as are kept with the end byte, one less, one more.
    ("abcde\nfg\n", "abcde|fg|"),
    ("abcd\nfg\n", "abcd|fg|"),
    ("abcdef\ngh\n", "abcdef|gh|"),
    ("abcdef", "abcdef|"),
    // Longer lines, the last one without an end byte.
    ("abcdefghijklmnopq\nok\n", "abcdef|ok|"),
    ("abcdefghijklmnopq\n\nok", "abcdef||ok|"),
    ("ok\nabcdefghijklmnopq", "ok|abcdef|"),
    // A byte 0D is part of its line.
    ("\r\nab\r\n", "\r|ab\r|"),
    ("abcd\r\nef\n", "abcd\r|ef|"),
    ("abcdefg\r\nhi\n", "abcdef|hi|"),
    ("ab\rcd\n", "ab\rcd|"),
];

// Reports whether these lines are read from an input, for any number of bytes that the reader requests at a time.
fn are_lines(alloc: Global, input: &str, wanted: &str) -> Result<bool, Fail> {
    for capacity in &[1, 2, 5, 6, 7, 64] {
        let read = lines(alloc, input, *capacity)?;
        if read.as_slice() != wanted.as_bytes() {
            return Ok(false);
        }
    }
    Ok(true)
}

#[test]
fn bounded_lines(rt: HostRuntime) -> Result<(), Fail> {
    for (input, wanted) in &LINES {
        assert!(rt; are_lines(rt.alloc(), input, wanted)?);
    }
    Ok(())
}
