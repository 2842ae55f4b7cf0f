//! Theorems about the definitions. Each is a clause of a function that does nothing.

ghost use Rattle.ct_node.specs.LookUps.{StatesAddOthers};
ghost use Rattle.ct_node.specs.Progress.{IsNear, StartedNodesAnswer, NodesAnswerAgain};
ghost use Rattle.ct_node.specs.Starts.{GoesBehindNone, CreatesOverNothing, AnswersTell, ShownNeverGoesBack};
ghost use Rattle.ct_node.specs.Sweeps.{SweepsKeep};
ghost use Rattle.ct_node.specs.TakeUps.{StartsTakeUpNewest, StartsGoOn};
ghost use Rattle.ct_node.specs.Worlds.{WorldsAreSound, HeadsAreWhole, PastsAreChains, StepsFindAll, CanBePublished, NamesHaveOneContent, HoldsNewest, StagedStand, AskedAreTaken};

/// For any number of nodes, whatever happens to their commands:
/// - `sound`: the world is sound, as `IsSoundWorld` defines it.
/// - `whole`: if a head exists, then all objects of its state and of every earlier state exist.
/// - `chain`: the states that the lock took are one chain, and each was made from the one before it.
/// - `holds`: the lock holds the newest of them.
/// - `finds`: a node that has a step made finds all index entries and objects of the earlier states.
/// - `publishes`: a node that starts can still publish the newest state.
/// - `staged`: if a swap may still take effect, then the staged batch of its state exists.
/// - `asked`: a head is asked for only for a state that the lock took.
/// - `names`: if each name has only one content in the states that the lock took, then this holds for all objects that were ever put.
/// - `others`: no two states that the lock took add the same identity, if the waiting entries are looked up before each step, and the index
///   misses no entry.
#[tactic(auto, using(crate::proofs::Sound::worlds_are_sound))]
pub fn worlds()
    ensures sound { WorldsAreSound }
    ensures whole { HeadsAreWhole }
    ensures chain { PastsAreChains }
    ensures holds { HoldsNewest }
    ensures finds { StepsFindAll }
    ensures publishes { CanBePublished }
    ensures staged { StagedStand }
    ensures asked { AskedAreTaken }
    ensures names { NamesHaveOneContent }
    ensures others { StatesAddOthers }
{}

/// Suppose that no store fails: a reading returns the state that the lock holds, the lock refuses a swap only if it took another one since,
/// and each other command succeeds. Nothing is said of time, and nothing says that stores do not fail.
/// - `near`: a node is at most 8 outcomes away from its answer. Each success brings it nearer ([`crate::Node::next`]).
/// - `started`: whatever happened before, let n nodes start. Some node comes to its answer within 9 n outcomes, whichever nodes get them.
/// - `again`: for n nodes with any commands that were given before, this holds within 13 n outcomes.
pub fn progress()
    ensures near { IsNear }
    ensures started { StartedNodesAnswer }
    ensures again { NodesAnswerAgain }
{}

/// Suppose that a partial tile is deleted only after its full tile was put, and a head only after a later one was put. Then, for any
/// deleting process and whatever happens to the nodes' commands:
/// - For each object that was ever put, its tile or the full tile exists. So this holds for each object of a state that a head covers.
/// - For each head that was ever put, a head exists that is no earlier.
/// - [`worlds`] holds for everything that was put.
#[tactic(auto, using(crate::proofs::Swept::sweeps_keep))]
pub fn sweeps()
    ensures { SweepsKeep }
{}

/// The decisions of a node that starts:
/// - `goes`: the node continues from the lock's head if and only if no other known head is ahead of it.
/// - `creates`: the node creates a lock if and only if it is asked to, there is no lock, and nothing is known of a log.
/// - `tells`: each answer is given for the reason that its definition states, and no check before it fails. No other answer's reason is
///   true.
/// - `shown`: of the heads that a node shows, whatever it finds, none is ahead of a later one.
pub fn starts()
    ensures goes { GoesBehindNone }
    ensures creates { CreatesOverNothing }
    ensures tells { AnswersTell }
    ensures shown { ShownNeverGoesBack }
{}

/// For whatever happens to the nodes' commands, and whatever is garbage-collected as in [`sweeps`]:
/// - `newest`: suppose that a node reads the lock's head first, that this is the head of a state that the lock held at some time, and that
///   the node lists the existing heads after that. If the node continues from that state, then no head that was ever put is later. No state
///   that the lock took is later either, except the newest if its head was not put.
/// - `on`: a node continues if everything that it finds is from the history, nothing changes while it reads, and no step has fewer entries
///   than the state it was made from.
pub fn take_ups()
    ensures newest { StartsTakeUpNewest }
    ensures on { StartsGoOn }
{}
