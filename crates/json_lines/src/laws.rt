//! Laws of the lines' values, each the contract of a function that does nothing.

ghost use Rattle.json_lines.specs.Laws.{BytesReadBack};

/// A text is read as some bytes if and only if it is the base64 that is written for them.
#[tactic(auto, using(crate::proofs::OneText::bytes_read_back))]
pub fn bytes_read_back()
    ensures { BytesReadBack }
{}
