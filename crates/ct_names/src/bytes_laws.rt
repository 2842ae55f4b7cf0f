//! Laws of the bytes, each the contract of a function that does nothing.

ghost use Rattle.ct_names.specs.NameBytes.{NamesTextsDiffer};
ghost use Rattle.ct_names.specs.FoundBytes.{FindingIsByLabels};

/// The bytes of names are the bytes of no other names.
pub fn names_texts_differ()
    ensures { NamesTextsDiffer }
{}

/// A watched name is found if and only if it matches by the labels of a name (RFC 9525, section 6.3).
pub fn finding_is_by_labels()
    ensures { FindingIsByLabels }
{}
