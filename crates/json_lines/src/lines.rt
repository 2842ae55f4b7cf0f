//! An input cut into lines, as it arrives. No more of each line is held than is asked for.

ghost use Rattle.std.specs.Prelude.{◌≡◌, ◌≢◌, ◌<◌, ◌≤◌, ◌-◌, ◌++◌, [], All, take, length, IfOk, OnOk, OnErr};
ghost use Rattle.std.specs.Io.BufRead.{strip_last};
ghost use Rattle.json_lines.specs.Lines.{IsPiece, IsKeptOf, TakesNext, TakesPiece, TakesFirstLine};

use std::alloc::AllocError;
use std::io;
use std::io::{BufRead, ErrorKind};

/// The maximum number of lines of an input, and of pieces of a line, that are read. So they can be counted, and each loop over them ends.
pub const READS: u64 = 1 << 50;

/// The maximum number of bytes of a request line that are kept, including its end: two more than the longest request has.
pub const REQUEST_KEPT: usize = 1_048_578;

/// The line without the byte 0A at its end.
pub fn content(line: &[u8]) -> &[u8]
    ensures { result.now ≡ strip_last 10 line.now }
{
    match line.split_last() {
        Some((last, front)) if *last == b'\n' => front,
        _ => line,
    }
}

// The length up to and including the first byte 0A, or the whole length.
fn through(bytes: &[u8]) -> usize
    ensures bound { result ≤ length bytes.now }
    ensures some { 0 < length bytes.now → 0 < result }
    ensures before { All (λ x. x ≢ 10) (take (result - 1) bytes.now) }
{
    let mut i = 0;
    while i < bytes.len() {
        if bytes[i] == b'\n' {
            return i + 1;
        }
        i += 1;
    }
    i
}

/// Cuts some bytes after the first 0A, or at their end. It keeps as much of the bytes before the cut as there is room for, `most` bytes of
/// a line in all. It returns where the cut is, and whether the line ended there.
///
/// # Errors
///
/// Returns an error if memory runs out.
pub fn cut_piece(bytes: &[u8], most: usize, line: &mut Vec<u8>) -> Result<(usize, bool), AllocError>
    requires { length line.old.items ≤ most }
    ensures piece { IfOk result (λ p. IsPiece bytes.now p.0 p.1) }
    ensures kept { IfOk result (λ p. line.new.items ≡ take most (line.old.items ++ take p.0 bytes.now)) }
    ensures same { OnErr result (line.new.items ≡ line.old.items) }
{
    let end = through(bytes);
    let kept = end.min(most - line.len());
    line.extend_from_slice(&bytes[..kept])?;
    let is_ended = end > 0 && bytes[end - 1] == b'\n';
    Ok((end, is_ended))
}

// Takes the bytes in the reader's buffer, up to and including the first byte 0A, and keeps as many as there is room for. It reports whether
// the line ended, at that byte or at the end of the input.
fn take_piece<R: BufRead>(input: &mut R, most: usize, line: &mut Vec<u8>) -> io::Result<bool>
    requires { length line.old.items ≤ most }
    ensures { TakesPiece most (R.remaining input.old) (R.remaining input.new) line.old.items line.new.items result }
{
    let available = match input.fill_buf() {
        Ok(available) => available,
        Err(error) => {
            return if error.kind() == ErrorKind::Interrupted {
                Ok(false)
            } else {
                Err(error)
            };
        }
    };
    let (end, is_ended) = cut_piece(available, most, line)?;
    input.consume(end);
    Ok(end == 0 || is_ended)
}

// Takes the next line with its end, and keeps as much of it in an empty vector as there is room for.
fn take_line<R: BufRead>(input: &mut R, most: usize, line: &mut Vec<u8>) -> io::Result<()>
    requires { line.old.items ≡ [] }
    ensures line { OnOk result (TakesFirstLine most (R.remaining input.old) (R.remaining input.new) line.new.items) }
    ensures one { OnOk result (All (λ x. x ≢ 10) (strip_last 10 line.new.items)) }
    ensures none_lost { OnErr result (IsKeptOf most (R.remaining input.old) (R.remaining input.new) line.new.items) }
{
    for turn in 0..READS {
        if take_piece(input, most, line)? {
            return Ok(());
        }
    }
    Err(io::Error::from(ErrorKind::Other))
}

/// Reads the next line into `line`, without the byte 0A at its end, and replaces the contents of `line`. It reports whether there was a
/// line; if not, the input had ended. An empty line counts as a line. A last line that ends with the input counts too. A byte 0D is part of
/// its line, and a byte 0A is part of no line. If a line has more than `most` bytes with its end, the first `most` are kept, so that no
/// line takes more memory.
///
/// # Errors
///
/// The reader's error if the reader fails; `OutOfMemory` if memory runs out; and another error if there are more than 2^50 pieces of a
/// line. After an error, `line` contains what was read of the line, as far as it is kept; the line's end was not read.
pub fn next_line<R: BufRead>(input: &mut R, most: usize, line: &mut Vec<u8>) -> io::Result<bool>
    requires { 0 < most }
    ensures line { IfOk result (λ is_line. TakesNext most (R.remaining input.old) (R.remaining input.new) line.new.items is_line) }
    ensures one { OnOk result (All (λ x. x ≢ 10) line.new.items) }
    ensures none_lost { OnErr result (IsKeptOf most (R.remaining input.old) (R.remaining input.new) line.new.items) }
{
    line.clear();
    take_line(input, most, line)?;
    if line.is_empty() {
        return Ok(false);
    }
    let end = content(line).len();
    line.truncate(end);
    Ok(true)
}
