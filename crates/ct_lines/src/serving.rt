//! Serves the frozen log over a reader of request lines and a writer of replies.

ghost use Rattle.std.specs.Prelude.{◌≡◌, ◌<◌, ◌≤◌, ◌+◌, ◌^◌, ℕ, List, [], length, IfOk, OnOk, IfErr};
ghost use Rattle.std.specs.Io.KnownBytes.{Appends, Consumes, IsAtEnd};
ghost use Rattle.std.specs.List.{concat};
ghost use Rattle.ct_lines.specs.Frozen.{frozen_reply, frozen_replies, frozen_text};
ghost use Rattle.ct_lines.specs.Serving.{count_in, reply_if, as_list, IsShort, IsCutOff, IsEndedBy};
ghost use Rattle.ct_lines.specs.Progress.{StandsFor, EndsAs, Goes, StopsBefore, StopsWithin};

use crate::fault::{GrowthRefused, ReadFailed, ServeFault, WriteFailed};
use crate::frozen::frozen_reply;
use ct_core::Published;
use ct_tree::Memory;
use json_lines::{READS, REQUEST_KEPT, content, cut_piece, write_bytes};
use std::alloc::Global;
use std::io::{Read, Write};

// Returns the reply to a line that ended, from its kept part, or `None` if the line is empty.
fn ended_reply(alloc: Global, log: &Published, kept: &[u8]) -> Result<Option<Vec<u8>>, Memory>
    ensures { IfOk result (λ o. (line : List ℕ) → EndsAs kept.now line → as_list o ≡ reply_if (frozen_reply log.now) line) }
{
    let line = content(kept);
    if line.is_empty() {
        return Ok(None);
    }
    let reply = frozen_reply(alloc, log, line)?;
    Ok(Some(reply))
}

// Writes the reply to the line that ended, from its kept part, and clears the kept part. Returns the number of replies; `count` of them
// were written before.
fn end_line<W: Write>(
    alloc: Global,
    log: &Published,
    writer: &mut W,
    kept: &mut Vec<u8>,
    count: u64,
) -> Result<u64, ServeFault>
    requires { count + 1 < 2 ^ 64 }
    ensures written { IfOk result (λ n. (line : List ℕ) → EndsAs kept.old.items line
        → Appends (W.contents writer.old) (W.contents writer.new) (concat (reply_if (frozen_reply log.now) line))
        × (n ≡ count + length (reply_if (frozen_reply log.now) line))) }
    ensures bounded { IfOk result (λ n. n ≤ count + 1) }
    ensures forgotten { OnOk result (kept.new.items ≡ []) }
    ensures counted { IfErr result (λ f. count_in f ≡ count) }
    ensures stopped { IfErr result (λ f. (line : List ℕ) → EndsAs kept.old.items line
        → (next : List ℕ) × IsShort next (reply_if (frozen_reply log.now) line)
        × StopsBefore f next (reply_if (frozen_reply log.now) line)
        × Appends (W.contents writer.old) (W.contents writer.new) next) }
{
    let reply = match ended_reply(alloc, log, kept) {
        Ok(reply) => reply,
        Err(error) => return Err(ServeFault::from(GrowthRefused { count, error })),
    };
    kept.clear();
    let Some(bytes) = reply else {
        return Ok(count);
    };
    match write_bytes(writer, &bytes) {
        Ok(()) => Ok(count + 1),
        Err(error) => Err(ServeFault::from(WriteFailed { count, error })),
    }
}

// Serves a piece of the input: replies to each line that ends in it, and keeps the part read of the line after these.
fn feed<W: Write>(
    alloc: Global,
    log: &Published,
    writer: &mut W,
    kept: &mut Vec<u8>,
    count: u64,
    piece: &[u8],
) -> Result<u64, ServeFault>
    requires room { length kept.old.items ≤ 1048578 }
    requires counts { count + length piece.now < 2 ^ 64 }
    ensures bounded { IfOk result (λ n. n ≤ count + length piece.now) }
    ensures served { IfOk result (λ n. (line : List ℕ) → StandsFor kept.old.items line
        → Goes (frozen_reply log.now) (W.contents writer.old) (W.contents writer.new) kept.new.items count n line piece.now) }
    ensures stopped { IfErr result (λ f. (line : List ℕ) → StandsFor kept.old.items line
        → StopsWithin (frozen_reply log.now) (W.contents writer.old) (W.contents writer.new) count f line piece.now) }
{
    let mut total = count;
    let mut rest = piece;
    while !rest.is_empty() {
        let (end, is_ended) = match cut_piece(rest, REQUEST_KEPT, kept) {
            Ok(cut) => cut,
            Err(error) => {
                let count = total;
                return Err(ServeFault::from(GrowthRefused { count, error }));
            }
        };
        if is_ended {
            match end_line(alloc, log, writer, kept, total) {
                Ok(more) => total = more,
                Err(fault) => return Err(fault),
            }
        }
        let (_, left) = rest.split_at(end);
        rest = left;
    }
    Ok(total)
}

/// Serves a log that was closed: reads request lines until the input ends, and writes the reply to each.
///
/// - A line ends at the byte 0A, and the last one may end with the input. An empty line has no reply.
/// - `bad-line` is the reply to a line that is no request, such as a line of more than 1,048,576 bytes, and to a request of a front or of
///   the operator.
/// - Each whole line that was read is replied to before the reader is called again.
/// - Memory is taken for one line and its reply at a time. Memory for all leaves is taken only if an audit's leaf and path are not the
///   log's own but lead to the head's root.
/// - A line that is too long is cut: at most two bytes more than the longest allowed line are kept.
/// - The writer is not flushed.
///
/// # Errors
///
/// Each error has the number k of the replies that were written whole. After these, at most a proper prefix of the next one is written.
/// Each error ends the call at once.
///
/// - `Read`: the reader failed, and each line that had ended has its reply.
/// - `Write`: the writer failed or accepted no bytes, before a reply was whole.
/// - `Memory`: memory was refused, and no reply is begun that is not whole.
/// - `Endless`: the reader returned bytes 2^50 times, and each line that had ended has its reply.
///
/// No clause says that the reader or the writer failed, because their contracts say the same of their bytes before and after a failed call.
/// Both faults are made from the error that the reader or writer returned. Tests show this.
pub fn serve_frozen<R: Read, W: Write>(
    alloc: Global,
    log: &Published,
    reader: &mut R,
    writer: &mut W,
) -> Result<(), ServeFault>
    ensures served { OnOk result ((input : List ℕ)
        × Consumes (R.remaining reader.old) (R.remaining reader.new) input
        × IsAtEnd (R.remaining reader.new)
        × Appends (W.contents writer.old) (W.contents writer.new) (frozen_text log.now input)) }
    ensures fault { IfErr result (λ f. (input : List ℕ) × (written : List ℕ)
        × Consumes (R.remaining reader.old) (R.remaining reader.new) input
        × Appends (W.contents writer.old) (W.contents writer.new) written
        × IsCutOff (frozen_replies log.now input) written (count_in f)) }
    ensures ended { IfErr result (λ f. (input : List ℕ) × (written : List ℕ)
        × Consumes (R.remaining reader.old) (R.remaining reader.new) input
        × Appends (W.contents writer.old) (W.contents writer.new) written
        × IsEndedBy (frozen_reply log.now) input written f) }
{
    let mut kept = Vec::new(alloc);
    let mut count = 0;
    let mut buffer = [0u8; 8192];
    for turn in 0..READS {
        let space: &mut [u8] = &mut buffer;
        match reader.read(space) {
            Ok(0) => {
                return match end_line(alloc, log, writer, &mut kept, count) {
                    Ok(_) => Ok(()),
                    Err(fault) => Err(fault),
                };
            }
            Ok(n) => {
                let (piece, _) = buffer.split_at(n);
                match feed(alloc, log, writer, &mut kept, count, piece) {
                    Ok(more) => count = more,
                    Err(fault) => return Err(fault),
                }
            }
            Err(error) => return Err(ServeFault::from(ReadFailed { count, error })),
        }
    }
    Err(ServeFault::Endless(count))
}
