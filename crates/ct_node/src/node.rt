//! The commands of a node, and which command comes after which.
ghost use Rattle.std.specs.Prelude.{◌≡◌, ◌<◌};
ghost use Rattle.ct_node.specs.Nodes.{after, follows, is_behind};
ghost use Rattle.ct_node.specs.Progress.{distance, IsSuccess};

use crate::state::State;

/// A node, represented by its current command. A node that starts, or starts again, reads.
///
/// A count is the number of objects in a state's staged batch.
#[derive(Clone, Copy, Debug, PartialEq, Eq)]
pub enum Node {
    /// Read the lock.
    Reading,
    /// Look up whether this state's head exists. If it does not, read the state's staged batch.
    Looking(State),
    /// The state is published: have a step made from it, or name a staged batch that may not be needed any more.
    Stepping(State),
    /// A step from the first state led to the second one, which has this number of objects: store its staged batch.
    Staging(State, State, u64),
    /// Replace the first state in the lock by the second one.
    Swapping(State, State, u64),
    /// The first state is published: delete the staged batch of the second one.
    Deleting(State, State),
    /// Put all objects of the state's staged batch, which has this number of them, in any order or several at once.
    Putting(State, u64),
    /// Add the state's entries to the deduplication index.
    Placing(State),
    /// Have the state's head signed, and put it.
    Heading(State),
    /// Answer the requests that wait for the state.
    Answering(State),
}

/// The outcome of a command. If it is not known, the command is given once more.
#[derive(Clone, Copy, Debug, PartialEq, Eq)]
pub enum Outcome {
    /// It is done.
    Done,
    /// It is not done, or is not known to be done and is given up. This outcome does no harm if it is false.
    Lost,
    /// The lock held this state.
    Read(State),
    /// The head exists.
    Published,
    /// The number of objects in the staged batch.
    Bundle(u64),
    /// A step was made: its state, and the number of objects in its staged batch.
    Stepped(State, u64),
    /// A staged batch of this state exists.
    Listed(State),
}

// Reports whether a state may come after another.
fn may_follow(seen: &State, new: &State) -> bool
    ensures { result ≡ follows seen.now new.now }
{
    new.before == seen.moment && seen.moment < new.moment
}

// Reports whether, once `seen` is published, the staged batch of `staged` is not needed: its state is in the past or will never be taken.
fn is_past(seen: &State, staged: &State) -> bool
    ensures { result ≡ is_behind seen.now staged.now }
{
    staged.before < seen.moment && !(staged.moment == seen.moment && staged.salt == seen.salt)
}

impl Node {
    /// Returns the command that follows this one after `outcome`. An outcome that belongs to another command changes nothing.
    pub fn next(self, outcome: Outcome) -> Node
        ensures next { result ≡ after self outcome }
        ensures nearer { IsSuccess self outcome → distance result < distance self }
    {
        match (self, outcome) {
            (Node::Reading, Outcome::Read(held)) => Node::Looking(held),
            (Node::Looking(seen), Outcome::Published) => Node::Stepping(seen),
            (Node::Looking(seen), Outcome::Bundle(count)) => Node::Putting(seen, count),
            (Node::Looking(_), Outcome::Lost) => Node::Reading,
            (Node::Stepping(seen), Outcome::Stepped(new, count)) => {
                if may_follow(&seen, &new) {
                    Node::Staging(seen, new, count)
                } else {
                    self
                }
            }
            (Node::Stepping(seen), Outcome::Listed(staged)) => {
                if is_past(&seen, &staged) {
                    Node::Deleting(seen, staged)
                } else {
                    self
                }
            }
            (Node::Stepping(_), Outcome::Lost) => Node::Reading,
            (Node::Staging(seen, new, count), Outcome::Done) => Node::Swapping(seen, new, count),
            (Node::Staging(_, _, _), Outcome::Lost) => Node::Reading,
            (Node::Swapping(_, new, count), Outcome::Done) => Node::Putting(new, count),
            (Node::Swapping(_, _, _), Outcome::Lost) => Node::Reading,
            (Node::Deleting(seen, _), Outcome::Done | Outcome::Lost) => Node::Stepping(seen),
            (Node::Putting(taken, _), Outcome::Done) => Node::Placing(taken),
            (Node::Putting(_, _), Outcome::Lost) => Node::Reading,
            (Node::Placing(taken), Outcome::Done) => Node::Heading(taken),
            (Node::Placing(_), Outcome::Lost) => Node::Reading,
            (Node::Heading(taken), Outcome::Done) => Node::Answering(taken),
            (Node::Heading(_), Outcome::Lost) => Node::Reading,
            (Node::Answering(_), Outcome::Done | Outcome::Lost) => Node::Reading,
            _ => self,
        }
    }
}
