//! Laws of elements (X.690, sections 8.1 and 10.1), each the contract of a function that does nothing.

ghost use Rattle.ct_promise.specs.DerLaws.{ReadElementsAreThere, ElementsAreRead, ElementsStandApart, BeginningsAreTruncated, ElementsHaveOneText, WrittenElementsAreThere, ElementsAreWritten};

/// An element that `element` reads is a prefix of the bytes.
#[tactic(auto, using(crate::proofs::Elements::read_elements_are_there))]
pub fn read_elements_are_there()
    ensures { ReadElementsAreThere }
{}

/// An element is read, whatever follows it.
#[tactic(auto, using(crate::proofs::Elements::elements_are_read))]
pub fn elements_are_read()
    ensures { ElementsAreRead }
{}

/// No bytes have two readings: if bytes begin with two elements, the elements are one, and the same bytes follow.
#[tactic(auto, using(crate::proofs::Elements::elements_stand_apart))]
pub fn elements_stand_apart()
    ensures { ElementsStandApart }
{}

/// Each proper prefix of an element is refused as truncated.
#[tactic(auto, using(crate::proofs::Prefixes::beginnings_are_truncated))]
pub fn beginnings_are_truncated()
    ensures { BeginningsAreTruncated }
{}

/// An element has exactly one text.
#[tactic(auto, using(crate::proofs::DerWritten::elements_have_one_text))]
pub fn elements_have_one_text()
    ensures { ElementsHaveOneText }
{}

/// The text written for a tag of one byte and fewer than 2^32 bytes of content is their element, and each element is the text written for
/// it.
#[tactic(auto, using(crate::proofs::DerWritten::written_elements_are_there, crate::proofs::DerWritten::elements_are_written))]
pub fn elements_are_written()
    ensures there { WrittenElementsAreThere }
    ensures written { ElementsAreWritten }
{}
