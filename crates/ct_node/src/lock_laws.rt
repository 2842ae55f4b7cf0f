//! Theorems about the definitions. Each is the contract of a function that does nothing.

ghost use Rattle.ct_node.specs.LockLaws.{NamesSayTheirState, ReadNamesAreWritten, TextsSayTheirState};

/// Everything that is written for a state is read again: its name (`names`), and the next text of its line (`texts`). A state is read only
/// from the name that is written for it (`only_names`).
#[tactic(auto, using(crate::proofs::LockNames::names_say_their_state, crate::proofs::LockNames::read_names_are_written, crate::proofs::LockNames::texts_say_their_state))]
pub fn written_is_read()
    ensures names { NamesSayTheirState }
    ensures only_names { ReadNamesAreWritten }
    ensures texts { TextsSayTheirState }
{}
