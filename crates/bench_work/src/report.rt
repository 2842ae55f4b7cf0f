//! The output that all works have in common.

use std::io;
use std::time::Duration;

// Prints a time as nanoseconds for each of `count` calls.
pub(crate) fn report(rt: &HostRuntime, what: &str, count: u64, time: Duration) -> io::Result<()> {
    let each = if count > 0 {
        time.as_nanos() / u128::from(count)
    } else {
        0
    };
    println!(rt; "{what} {each} ns")
}

// Prints a root.
pub(crate) fn show_root(rt: &HostRuntime, root: &[u8; 32]) -> io::Result<()> {
    let text = hex::encode(rt.alloc(), root)?;
    println!(rt; "root {text}")
}
