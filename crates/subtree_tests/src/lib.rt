//! Tests of what `ct_subtrees` makes, in a crate of their own so that it is proved once.
#![tactic(auto)]

#[cfg(test)]
mod covers;
#[cfg(test)]
mod made;
