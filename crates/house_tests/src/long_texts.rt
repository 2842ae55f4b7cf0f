// A text is sent whole, of any length.
use json_lines::send;
use std::test::Fail;

#[test]
fn long_texts(rt: HostRuntime) -> Result<(), Fail> {
    for length in [0usize, 1, 7_777, 65_537, 1_048_577, 4_194_305] {
        let bytes = vec![in rt.alloc(); b'a'; length]?;
        let mut output = Vec::new(rt.alloc());
        let sent = send(&mut output, &bytes);
        assert!(rt; sent.is_ok() && output.len() == length);
    }
    Ok(())
}
