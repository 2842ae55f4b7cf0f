//! The text that a log's lock holds, and the names of staged batches (`ct_node`).

ghost use Rattle.std.specs.Prelude.{◌≡◌, IfOk};
ghost use Rattle.libwagtenib.specs.Lock.{WritesLockText, ReadsLockText, ReadsBatchName};
ghost use Rattle.libwagtenib.specs.Node.{state_of_c};
ghost use Rattle.ct_node.specs.LockText.{bundle_name};

use crate::codes;
use crate::codes::OUT_OF_MEMORY;
use crate::node::{NodeState, of_state, state_of};
use crate::output::write_output;
use ct_node::{said_in, state_of_name, text_of, write_name};
use std::alloc::{AllocError, Global};

/// Writes the lock's text of a step's state line, which the node sets in place of a state with the timestamp `previous_timestamp`, into `text`, and its length into
/// `length`. The salt is a random number. 0, 8 or 9.
#[unsafe(no_mangle)]
pub extern "C" fn wagtenib_lock_text(
    alloc: Global,
    line: &[u8],
    node: &[u8],
    previous_timestamp: u64,
    salt: u64,
    text: &mut [u8],
    length: &mut u64,
) -> u32
    ensures { WritesLockText result line.now node.now previous_timestamp salt text.old text.new length.old length.new }
{
    match text_of(alloc, line, node, previous_timestamp, salt) {
        Ok(made) => write_output(&made, text, length),
        Err(AllocError) => OUT_OF_MEMORY,
    }
}

/// Reads a lock's text: 0, and its state and number of entries. 114: the bytes are none, and nothing is written.
#[unsafe(no_mangle)]
pub extern "C" fn wagtenib_lock_state(
    text: &[u8],
    state: &mut NodeState,
    tree_size: &mut u64,
) -> u32
    ensures { ReadsLockText result text.now state.old state.new tree_size.old tree_size.new }
{
    let Some(said) = said_in(text) else {
        return codes::BAD_LOCK_TEXT;
    };
    *state = of_state(&said.state);
    *tree_size = said.size;
    codes::OK
}

/// Writes the name of a state's staged batch.
#[unsafe(no_mangle)]
pub extern "C" fn wagtenib_batch_name(state: &NodeState, name: &mut [u8; 56])
    ensures { name.new ≡ bundle_name (state_of_c state.now) }
{
    write_name(&state_of(state), name);
}

/// Reads the name of a staged batch: 0, and its state. 115: no batch has that name, and nothing is written.
#[unsafe(no_mangle)]
pub extern "C" fn wagtenib_batch_state(name: &[u8], state: &mut NodeState) -> u32
    ensures { ReadsBatchName result name.now state.old state.new }
{
    let Some(found) = state_of_name(name) else {
        return codes::BAD_BATCH_NAME;
    };
    *state = of_state(&found);
    codes::OK
}
