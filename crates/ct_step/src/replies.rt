//! Writes the bytes of a reply, in the presentation language of RFC 5246 (section 4).

ghost use Rattle.std.specs.Prelude.{◌≡◌, ◌++◌, OnOk, IfOk, map, filter_map, slice_get, Ok, Err};
ghost use Rattle.std.specs.List.{flat_map};
ghost use Rattle.ct_codec.specs.Bytes.{num, vec};
ghost use Rattle.ct_codec.specs.Signed.{tree_head_text};
ghost use Rattle.ct_checkpoint.specs.Checkpoint.{checkpoint_text};
ghost use Rattle.ct_step.specs.Leaves.{receipt_parts};
ghost use Rattle.ct_step.specs.StateLines.{state_line_text};
ghost use Rattle.ct_step.specs.StepWords.{steps, rolls_out, place_parts};
ghost use Rattle.ct_step.specs.StepReplies.{answer_parts, reply_parts, receipt_text, reference_text};

use crate::answer::{Answer, StepRefusal};
use crate::fault::NotMade;
use crate::places::Place;
use crate::{Receipt, StateLine, Step};
use ct_checkpoint::write_checkpoint;
use ct_codec::numbers::number_bytes_8;
use ct_codec::tree_head_signature_input;
use std::alloc::{AllocError, Global};

// Appends a number in 8 bytes.
fn push_number(text: &mut Vec<u8>, n: u64) -> Result<(), AllocError>
    ensures { OnOk result (text.new.items ≡ text.old.items ++ num 8 n) }
{
    text.extend_from_slice(&number_bytes_8(n))?;
    Ok(())
}

// Appends bytes as a vector whose length has 8 bytes.
fn push_vector(text: &mut Vec<u8>, bytes: &[u8]) -> Result<(), AllocError>
    ensures { OnOk result (text.new.items ≡ text.old.items ++ vec 8 bytes.now) }
{
    push_number(text, bytes.len() as u64)?;
    text.extend_from_slice(bytes)?;
    Ok(())
}

fn push_names(text: &mut Vec<u8>, names: &[Vec<u8>]) -> Result<(), AllocError>
    ensures { OnOk result (text.new.items ≡ text.old.items ++ flat_map (vec 8) (map (λ n. n.items) names.now)) }
{
    for name in names {
        push_vector(text, name)?;
    }
    Ok(())
}

fn push_receipt(text: &mut Vec<u8>, receipt: &Receipt) -> Result<(), AllocError>
    ensures { OnOk result (text.new.items ≡ text.old.items ++ receipt_text (receipt_parts receipt.now)) }
{
    push_number(text, receipt.leaf_index)?;
    push_number(text, receipt.timestamp)?;
    push_vector(text, &receipt.signed)
}

fn push_receipts(
    text: &mut Vec<u8>,
    receipts: &[Receipt],
    places: &[usize],
) -> Result<(), AllocError>
    ensures { OnOk result (text.new.items ≡ text.old.items
        ++ flat_map receipt_text (filter_map (slice_get (map receipt_parts receipts.now)) places.now)) }
{
    for place in places {
        let Some(receipt) = receipts.get(*place) else {
            continue;
        };
        push_receipt(text, receipt)?;
    }
    Ok(())
}

// Appends the position of an object in its staged batch.
fn push_place(text: &mut Vec<u8>, place: &Place<'_>) -> Result<(), AllocError>
    ensures { OnOk result (text.new.items ≡ text.old.items ++ reference_text (place_parts place.now)) }
{
    push_vector(text, place.name)?;
    push_number(text, place.start)?;
    push_number(text, place.length)?;
    text.extend_from_slice(&place.digest)?;
    Ok(())
}

// Returns the positions of objects in their staged batch.
fn places_text(alloc: Global, places: &[Place<'_>]) -> Result<Vec<u8>, AllocError>
    ensures { IfOk result (λ t. t.items ≡ flat_map reference_text (map place_parts places.now)) }
{
    let mut text = Vec::new(alloc);
    for place in places {
        push_place(&mut text, place)?;
    }
    Ok(text)
}

// Appends the text of the checkpoint for a line's head, and the positions of objects in their staged batch.
fn push_published(
    alloc: Global,
    text: &mut Vec<u8>,
    origin: &str,
    line: &StateLine,
    objects: &[Place<'_>],
) -> Result<(), AllocError>
    ensures { OnOk result (text.new.items ≡ text.old.items
        ++ (vec 8 (checkpoint_text origin.now line.now.tree_size line.now.root) ++ vec 8 (flat_map reference_text (map place_parts objects.now)))) }
{
    let checkpoint = write_checkpoint(alloc, origin, line.tree_size, &line.root)?;
    push_vector(text, checkpoint.as_bytes())?;
    let standing = places_text(alloc, objects)?;
    push_vector(text, &standing)
}

// Returns the bytes that are signed for a line's head.
fn head_input(alloc: Global, line: &StateLine) -> Result<Vec<u8>, AllocError>
    ensures { IfOk result (λ b. b.items ≡ tree_head_text line.now.timestamp line.now.tree_size line.now.root) }
{
    match tree_head_signature_input(alloc, line.timestamp, line.tree_size, &line.root) {
        Ok(input) => Ok(input),
        Err(refusal) => {
            NotMade::from(refusal).told?;
            unreachable!()
        }
    }
}

/// Returns the state of a new log.
pub(crate) fn begun_line(alloc: Global, line: &StateLine) -> Result<Answer, AllocError>
    ensures { IfOk result (λ t. answer_parts t ≡ Ok (state_line_text line.now)) }
{
    let text = line.write(alloc)?;
    Ok(Answer::Text(text.into_bytes()))
}

/// Returns the names of the objects that a step needs.
pub(crate) fn names_line(alloc: Global, names: &[Vec<u8>]) -> Result<Answer, AllocError>
    ensures { IfOk result (λ t. answer_parts t ≡ Ok (flat_map (vec 8) (map (λ n. n.items) names.now))) }
{
    let mut text = Vec::new(alloc);
    push_names(&mut text, names)?;
    Ok(Answer::Text(text))
}

/// Returns a step of a log with this origin, with the step's receipt at each of these indexes, and the positions of its objects in its
/// staged batch.
pub(crate) fn stepped_line(
    alloc: Global,
    origin: &str,
    step: &Step,
    places: &[usize],
    objects: &[Place<'_>],
) -> Result<Answer, AllocError>
    ensures { IfOk result (λ t. answer_parts t ≡ reply_parts origin.now (steps step.now places.now (map place_parts objects.now))) }
{
    let mut text = Vec::new(alloc);
    text.extend_from_slice(&step.signed)?;
    push_published(alloc, &mut text, origin, &step.line, objects)?;
    let state = step.line.write(alloc)?;
    push_vector(&mut text, state.as_bytes())?;
    push_vector(&mut text, &step.bundle)?;
    push_receipts(&mut text, &step.receipts, places)?;
    Ok(Answer::Text(text))
}

/// Returns a step that was decided, of a log with this origin: its head, and the positions of its objects in its staged batch.
pub(crate) fn resumed_line(
    alloc: Global,
    origin: &str,
    line: &StateLine,
    objects: &[Place<'_>],
) -> Result<Answer, AllocError>
    ensures { IfOk result (λ t. answer_parts t ≡ reply_parts origin.now (rolls_out line.now (map place_parts objects.now))) }
{
    let mut text = head_input(alloc, line)?;
    push_published(alloc, &mut text, origin, line, objects)?;
    Ok(Answer::Text(text))
}

/// Returns the bytes that are signed in an entry's receipt.
pub(crate) fn claimed_line(receipt: Receipt) -> Result<Answer, AllocError>
    ensures { IfOk result (λ t. answer_parts t ≡ Ok receipt.signed.items) }
{
    Ok(Answer::Text(receipt.signed))
}

/// Returns a refusal.
pub(crate) fn refused_line(refusal: StepRefusal) -> Result<Answer, AllocError>
    ensures { IfOk result (λ t. answer_parts t ≡ Err refusal) }
{
    Ok(Answer::Refused(refusal))
}
