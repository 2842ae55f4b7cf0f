//! Laws of published states, each the contract of a function that does nothing.

ghost use Rattle.ct_core.specs.Laws.{ShownEntriesAreRead};

use ct_codec::laws::{written_chains_are_read, written_leaves_are_read};

/// The decoders read the bytes that a reply shows for an entry (RFC 6962, section 4.6), for each entry of a published state, unless memory
/// was refused:
///
/// - `decode_leaf` returns the leaf of the entry's timestamp and signed entry from its `leaf_input`.
/// - `decode_chain` returns the certificates after the first from a certificate's `extra_data`.
/// - `decode_pre_chain` returns the precertificate and the certificates after it from a precertificate's `extra_data`.
pub fn shown_entries_are_read()
    ensures { ShownEntriesAreRead }
{
    written_leaves_are_read();
    written_chains_are_read();
}
