//! The bytes of a state, in the presentation language of RFC 5246 (section 4).

ghost use Rattle.std.specs.Prelude.{◌≡◌, ◌++◌, IfOk, OnOk};
ghost use Rattle.sha2.specs.Sha256.{sha256};
ghost use Rattle.ct_codec.specs.Bytes.{num, vec};
ghost use Rattle.ct_monitor.specs.StateText.{head_text, heads_text, parts_text, monitor_state_text, subtrees_text};

use crate::{Peaks, Watcher};
use ct_codec::numbers::number_bytes_8;
use ct_tree::{Head, NodeHash, Sha256Hash};
use std::alloc::{AllocError, Global};

// The version of the format.
const VERSION: u8 = 2;

// A number in 8 bytes.
fn push_number(text: &mut Vec<u8>, n: u64) -> Result<(), AllocError>
    ensures { OnOk result (text.new.items ≡ text.old.items ++ num 8 n) }
{
    text.extend_from_slice(&number_bytes_8(n))?;
    Ok(())
}

// Bytes as a vector whose length has 8 bytes.
fn push_vector(text: &mut Vec<u8>, bytes: &[u8]) -> Result<(), AllocError>
    ensures { OnOk result (text.new.items ≡ text.old.items ++ vec 8 bytes.now) }
{
    push_number(text, bytes.len() as u64)?;
    text.extend_from_slice(bytes)?;
    Ok(())
}

// A tree head that may be missing.
fn push_head(text: &mut Vec<u8>, head: Option<Head>) -> Result<(), AllocError>
    ensures { OnOk result (text.new.items ≡ text.old.items ++ head_text head) }
{
    match head {
        None => {
            text.push(0)?;
            Ok(())
        }
        Some(head) => {
            text.push(1)?;
            push_number(text, head.tree_size)?;
            push_number(text, head.timestamp)?;
            text.extend_from_slice(&head.root)?;
            Ok(())
        }
    }
}

// A number of leaves, and the roots of their perfect subtrees.
fn push_subtrees(text: &mut Vec<u8>, peaks: &Peaks) -> Result<(), AllocError>
    ensures { OnOk result (text.new.items ≡ text.old.items ++ subtrees_text peaks.now) }
{
    push_number(text, peaks.size())?;
    push_vector(text, peaks.subtrees().as_flattened())
}

// The heads of a state with their newest timestamps.
fn heads_of(alloc: Global, watcher: &Watcher<Sha256Hash>) -> Result<Vec<u8>, AllocError>
    ensures { IfOk result (λ text. text.items ≡ heads_text watcher.now.accepted watcher.now.waiting watcher.now.newest) }
{
    let mut text = Vec::new(alloc);
    text.push(VERSION)?;
    push_head(&mut text, watcher.accepted())?;
    push_head(&mut text, watcher.waiting())?;
    let newest = watcher.newest();
    push_number(&mut text, newest.accepted)?;
    push_number(&mut text, newest.waiting)?;
    Ok(text)
}

// The parts of a state.
fn parts_of(alloc: Global, watcher: &Watcher<Sha256Hash>) -> Result<Vec<u8>, AllocError>
    ensures { IfOk result (λ text. text.items ≡ parts_text watcher.now) }
{
    let mut text = heads_of(alloc, watcher)?;
    push_subtrees(&mut text, watcher.sure())?;
    push_subtrees(&mut text, watcher.all())?;
    Ok(text)
}

// The SHA-256 of bytes.
#[tactic(auto, using(std::proofs::lemmas::Grind::common_steps))]
pub(crate) fn digest(bytes: &[u8]) -> [u8; 32]
    ensures { result ≡ sha256 bytes.now }
{
    Sha256Hash.hash(&[bytes])
}

/// The bytes of a state.
pub(crate) fn write_state(
    alloc: Global,
    watcher: &Watcher<Sha256Hash>,
) -> Result<Vec<u8>, AllocError>
    ensures { IfOk result (λ text. text.items ≡ monitor_state_text sha256 watcher.now) }
{
    let mut text = parts_of(alloc, watcher)?;
    let check = digest(&text);
    text.extend_from_slice(&check)?;
    Ok(text)
}
