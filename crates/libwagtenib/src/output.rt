//! Output, whose length only the call knows, goes into the memory of the caller.

ghost use Rattle.libwagtenib.specs.Output.{WritesOutput};

use crate::codes;

// Writes bytes to the beginning of the memory, if it has room for them. The length becomes theirs in both cases.
pub(crate) fn write_output(bytes: &[u8], memory: &mut [u8], length: &mut u64) -> u32
    ensures { WritesOutput bytes.now result memory.old memory.new length.new }
{
    let n = bytes.len();
    *length = n as u64;
    if n > memory.len() {
        return codes::NO_ROOM;
    }
    memory[..n].copy_from_slice(bytes);
    codes::OK
}

// Writes hashes to the beginning of the memory, if it has room for them. Their number is written in both cases.
pub(crate) fn write_hashes(hashes: &[[u8; 32]], memory: &mut [[u8; 32]], count: &mut u64) -> u32
    ensures { WritesOutput hashes.now result memory.old memory.new count.new }
{
    let number = hashes.len();
    *count = number as u64;
    if number > memory.len() {
        return codes::NO_ROOM;
    }
    memory[..number].copy_from_slice(hashes);
    codes::OK
}
