//! One allocation is refused in each run. The tests check the results of the log's calls, and that nothing is lost.
//!
//! Each test makes its calls, and repeats a call that returns `Memory`. So a test passes with enough memory, and also if any one allocation
//! is refused (`rt try --test --fail-alloc N`, and `tests/memory.py` for each N). At most one call returns `Memory`. Each other result is
//! the same as with enough memory, and the final log is the same too. The test prints on standard output which call was refused.
//!
//! - `whole_log` is a house from `open` to `finish`, and the lines of its closed log. `large_batch` is a batch whose leaves four workers
//!   hash.
//! - `small_calls` has calls of the monitor, the verifiers, the decoders and `read_line`.
//! - `closed_log` is a house whose fronts have retired, `page` a writer that allocates no memory, `refused` the record of the refused call,
//!   and `weak_hash` a hash function that has collisions.

mod closed_log;
mod house;
mod large_batch;
mod page;
mod refused;
mod small_calls;
mod weak_hash;
mod whole_log;
