//! The laws of many calls of the node's functions. Each is the contract of a function that does nothing but call other laws.
//!
//! Any number of processes may make the calls, in any order. A call that never came back is left out.

ghost use Rattle.libwagtenib.specs.NodeLaws.{CommandsAreRead, CallsAreTold, CallsAreHistories, CommandsHaveTexts, CommandsHaveObjects, CallsWriteOneLog};
ghost use Rattle.libwagtenib.specs.NodeLaws.{CallsPutAll, CallsNameOneContent, CallsAddOnce, CallsStartBehindNone};

/// Whatever becomes of commands by calls is a history of `ct_node`'s nodes.
/// - `read`: the command that a call wrote is read again, as the next node's.
/// - `told`: whatever the outcomes are, and whatever the lock and the store do, each command that a call gave is one of a node, and the call writes what this node
///   gives next.
/// - `histories`: if the lock and the store keep what they promise, each command that calls gave is one that a node of the history gave.
pub fn commands_by_calls_are_histories()
    ensures read { CommandsAreRead }
    ensures told { CallsAreTold }
    ensures histories { CallsAreHistories }
{}

/// - `texts`: a caller that takes the states that outcomes name from texts that `wagtenib_lock_state` read has such texts for each command that calls give, whatever the
///   outcomes are.
/// - `objects`: one that takes the numbers of objects from the replies of steps has such a reply for each command that calls give.
pub fn commands_by_calls_have_texts()
    ensures texts { CommandsHaveTexts }
    ensures objects { CommandsHaveObjects }
{}

/// There is one list of entries. All that is in the stores is of it, and each call that says to answer submissions does so under a head of it. Or two of the strings
/// that are hashed collide.
pub fn nodes_by_calls_write_one_log()
    ensures { CallsWriteOneLog }
{
    ct_node::log_laws::nodes();
    ct_node::laws::worlds();
}

/// If calls are handed the right number of objects of each staged batch, each object of the step of a published head is in the store, or two of the strings that are
/// hashed collide.
pub fn nodes_by_calls_put_all()
    ensures { CallsPutAll }
{
    ct_node::log_laws::whole();
}

/// Any two objects that calls say to put under one name have one content, or two of the strings that are hashed collide.
pub fn nodes_by_calls_name_one_content()
    ensures { CallsNameOneContent }
{
    ct_node::log_laws::nodes();
}

/// If each step is looked up and no place is missing, no identity is in the log twice after the known entries, or two of the strings that are hashed collide.
pub fn nodes_by_calls_add_once()
    ensures { CallsAddOnce }
{
    ct_node::log_laws::no_identity_twice();
}

/// A node that starts continues from a lock's text exactly if no head that it finds is ahead of the text's.
pub fn nodes_start_behind_none()
    ensures { CallsStartBehindNone }
{
    ct_node::laws::starts();
}
