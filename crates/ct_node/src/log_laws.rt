//! Theorems about the definitions. Each is a clause of a function that does nothing except call other laws.

ghost use Rattle.ct_node.specs.Heads.{GuardedHeadsAreOfOneLog};
ghost use Rattle.ct_node.specs.Kept.{NodesKeepTiles};
ghost use Rattle.ct_node.specs.Logs.{NodesWriteOneLog};
ghost use Rattle.ct_node.specs.Names.{StepsWriteTiles, StepsHaveOneContent};
ghost use Rattle.ct_node.specs.Once.{NodesAddOnce};
ghost use Rattle.ct_node.specs.Public.{PublicNamesHaveOneContent};
ghost use Rattle.ct_node.specs.Whole.{HeadsHaveAllObjects};

/// Suppose that the nodes' steps are made by `take_step`, and that the objects that they put of a state are those that `resume` returns for
/// its line and any bytes. Then, whatever happens to the commands of any number of nodes, there is one list of entries:
/// - The line of each state that the lock took is the line of a beginning of the list.
/// - Each state whose waiting requests were answered has a published head, and is the log's first state or comes from a step. This step's
///   receipts, staged batch and entries are those of the list.
/// - For each public name of a tile, only one content was ever put, which is the list's tile.
///
/// The alternative is that two of the strings that are hashed collide.
pub fn nodes()
    ensures one_log { NodesWriteOneLog }
{
    ct_step::laws::sequencers_over_lines();
    crate::laws::worlds();
    names();
    ct_step::state_laws::bundles();
}

/// Suppose that the number of objects that such nodes learn of a state's staged batch is the number of objects in it. Then each object of the step of a published head
/// is in the store, or two of the strings that are hashed collide.
pub fn whole()
    ensures { HeadsHaveAllObjects }
{
    nodes();
    crate::laws::worlds();
    ct_step::state_laws::bundles();
}

/// Beside such nodes, anybody may put certificates of issuers, each under the name of its own digest. If any two objects (tiles, data tiles
/// or issuers) were ever put under one name, they have the same content, or two of the strings that are hashed collide.
pub fn public_names()
    ensures { PublicNamesHaveOneContent }
{
    nodes();
}

/// Beside such nodes, anybody may delete partial tiles after the full tile was put, and heads after a later one was put. Then everything
/// that was ever put can still be read:
/// - Each tile can be read under its own name, or as the beginning of the full one. So this holds for everything that a head covers.
/// - For each head that was ever put, a head that is no earlier can be read.
///
/// The alternative is that two of the strings that are hashed collide.
pub fn kept()
    ensures { NodesKeepTiles }
{
    nodes();
    crate::laws::sweeps();
    crate::laws::worlds();
    ct_data_tiles::name_laws::names();
}

/// Beside such nodes, any guards may protect the log's key, over one lock of their own. Take the heads that they let through one after the
/// other, of which the newest is one that a node asks for. Each of them that has leaves is the head of a beginning of the nodes' one list
/// of entries, or two of the strings that are hashed collide. Nothing is assumed of the heads before the newest.
pub fn heads()
    ensures one_log { GuardedHeadsAreOfOneLog }
{
    nodes();
    crate::laws::worlds();
    ct_guard::laws::heads_go_back();
}

/// Each object of a step of one log is the tile of the log's entries that its name denotes (`tiles`). So two objects that have one name
/// have one content, whoever made them (`one_content`).
pub fn names()
    ensures tiles { StepsWriteTiles }
    ensures one_content { StepsHaveOneContent }
{
    ct_tiles::laws::tiles();
    ct_data_tiles::name_laws::names();
}

/// Suppose that waiting entries are looked up before each step, that the deduplication index misses no entry that was added, and that no
/// batch has an identity twice. Then, whatever happens to the commands of any number of nodes, the lock's line is that of a log that begins
/// with the entries that were known. After these, the log has no identity that occurs before. The alternative is that two of the strings
/// that are hashed collide.
pub fn no_identity_twice()
    ensures { NodesAddOnce }
{
    crate::laws::worlds();
    ct_step::growth_laws::leaves();
}
