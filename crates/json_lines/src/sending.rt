//! Bytes written to a writer.

ghost use Rattle.std.specs.Prelude.{◌≡◌, ◌<◌, ℕ, length, take, true, false, OnOk, OnErr};
ghost use Rattle.std.specs.Io.KnownBytes.{Appends};
ghost use Rattle.json_lines.specs.Sends.{SendsSome};

use crate::fault::Unwritten;
use std::io;
use std::io::{ErrorKind, Write};

/// Writes all of the bytes. The writer is not flushed.
///
/// # Errors
///
/// The writer's error, or `WriteZero` if the writer took no bytes. Some of the bytes may be written then, but not all.
pub fn write_bytes<W: Write>(writer: &mut W, bytes: &[u8]) -> io::Result<()>
    ensures all { OnOk result (Appends (W.contents writer.old) (W.contents writer.new) bytes.now) }
    ensures some { OnErr result ((n : ℕ) × (n < length bytes.now) × Appends (W.contents writer.old) (W.contents writer.new) (take n bytes.now)) }
{
    let mut rest = bytes;
    while !rest.is_empty() {
        match writer.write(rest) {
            Ok(0) => return Err(io::Error::from(ErrorKind::WriteZero)),
            Ok(n) => {
                let (_, left) = rest.split_at(n);
                rest = left;
            }
            Err(error) => return Err(error),
        }
    }
    Ok(())
}

/// Writes all of the bytes, and reports whether it did.
///
/// It returns false only if the writer failed or took no bytes. Then some of the bytes may be written, but not all. No clause states that
/// it does not give up earlier, because the specification of a writer's contents is the same before and after a failed call; tests show it.
/// The writer is not flushed.
pub fn write_whole<W: Write>(writer: &mut W, bytes: &[u8]) -> bool
    ensures all { result ≡ true → Appends (W.contents writer.old) (W.contents writer.new) bytes.now }
    ensures some { result ≡ false → (n : ℕ) × (n < length bytes.now) × Appends (W.contents writer.old) (W.contents writer.new) (take n bytes.now) }
{
    write_bytes(writer, bytes).is_ok()
}

/// Writes all of the bytes, and flushes the output.
///
/// # Errors
///
/// `Unwritten` if the writer failed: a prefix of the bytes, perhaps all of them, was written.
pub fn send<W: Write>(output: &mut W, bytes: &[u8]) -> Result<(), Unwritten>
    ensures all { OnOk result (Appends (W.contents output.old) (W.contents output.new) bytes.now) }
    ensures some { OnErr result (SendsSome (W.contents output.old) (W.contents output.new) bytes.now) }
{
    if !write_whole(output, bytes) {
        return Err(Unwritten);
    }
    match output.flush() {
        Ok(()) => Ok(()),
        Err(_) => Err(Unwritten),
    }
}

/// Writes as many of the bytes as can be written, and does not report how many.
pub fn tell<W: Write>(output: &mut W, bytes: &[u8])
    ensures { SendsSome (W.contents output.old) (W.contents output.new) bytes.now }
{
    let _ = write_whole(output, bytes);
}
