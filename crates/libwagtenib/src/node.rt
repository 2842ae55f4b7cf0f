//! The next command of a node of a log (`ct_node`): the command that follows a command, by its outcome; and whether a node may start.

ghost use Rattle.std.specs.Prelude.{◌≡◌, ◌<◌};
ghost use Rattle.libwagtenib.specs.Node.{state_of_c, c_of_state, node_of_c, c_of_node, outcome_of_c, GivesNext, has_flag, other_of_c, found_of_c, start_code, lock_of, StartsNode};

use crate::codes;
use crate::head::TreeHead;
use ct_node::{Beginning, Found, Node, Other, Outcome, Point, State, has_root, said_in, start};

/// A state of a log, as far as the order of a node's commands goes.
#[repr(C)]
#[derive(Clone, Copy)]
pub struct NodeState {
    pub timestamp: u64,
    pub previous_timestamp: u64,
    pub salt: u64,
}

/// A command of a node.
#[repr(C)]
#[derive(Clone, Copy)]
pub struct NodeCommand {
    pub seen: NodeState,
    pub next: NodeState,
    pub objects: u64,
    pub command: u32,
}

/// The outcome of a command.
#[repr(C)]
#[derive(Clone, Copy)]
pub struct NodeOutcome {
    pub state: NodeState,
    pub objects: u64,
    pub outcome: u32,
}

/// The facts about a log that a node finds when it starts, beside the lock's text.
#[repr(C)]
#[derive(Clone, Copy)]
pub struct NodeFound {
    pub seen: TreeHead,
    pub signed_head: TreeHead,
    pub published: TreeHead,
    pub listed: TreeHead,
    pub flags: u32,
}

// The same state, as `ct_node` has it.
pub(crate) fn state_of(state: &NodeState) -> State
    ensures { result ≡ state_of_c state.now }
{
    State {
        moment: state.timestamp,
        before: state.previous_timestamp,
        salt: state.salt,
    }
}

// The same state, as callers in C have it.
pub(crate) fn of_state(state: &State) -> NodeState
    ensures { result ≡ c_of_state state.now }
{
    NodeState {
        timestamp: state.moment,
        previous_timestamp: state.before,
        salt: state.salt,
    }
}

// The command that a caller hands in, or nothing if its number is none of a command.
fn node_of(given: &NodeCommand) -> Option<Node>
    ensures { result ≡ node_of_c given.now }
{
    let seen = state_of(&given.seen);
    let next = state_of(&given.next);
    match given.command {
        0 => Some(Node::Reading),
        1 => Some(Node::Looking(seen)),
        2 => Some(Node::Stepping(seen)),
        3 => Some(Node::Staging(seen, next, given.objects)),
        4 => Some(Node::Swapping(seen, next, given.objects)),
        5 => Some(Node::Deleting(seen, next)),
        6 => Some(Node::Putting(next, given.objects)),
        7 => Some(Node::Placing(next)),
        8 => Some(Node::Heading(next)),
        9 => Some(Node::Answering(next)),
        _ => None,
    }
}

// A command with these states and this number of objects.
fn command_with(command: u32, seen: &State, next: &State, objects: u64) -> NodeCommand
    ensures { result ≡ record { seen = c_of_state seen.now; next = c_of_state next.now; objects = objects; command = command } }
{
    NodeCommand {
        seen: of_state(seen),
        next: of_state(next),
        objects,
        command,
    }
}

// The command, as callers in C have it.
fn of_node(node: &Node) -> NodeCommand
    ensures { result ≡ c_of_node node.now }
{
    let none = State {
        moment: 0,
        before: 0,
        salt: 0,
    };
    match node {
        Node::Reading => command_with(0, &none, &none, 0),
        Node::Looking(seen) => command_with(1, seen, &none, 0),
        Node::Stepping(seen) => command_with(2, seen, &none, 0),
        Node::Staging(seen, next, objects) => command_with(3, seen, next, *objects),
        Node::Swapping(seen, next, objects) => command_with(4, seen, next, *objects),
        Node::Deleting(seen, staged) => command_with(5, seen, staged, 0),
        Node::Putting(next, objects) => command_with(6, &none, next, *objects),
        Node::Placing(next) => command_with(7, &none, next, 0),
        Node::Heading(next) => command_with(8, &none, next, 0),
        Node::Answering(next) => command_with(9, &none, next, 0),
    }
}

// The outcome that a caller hands in, or nothing if its number is none of an outcome.
fn outcome_of(told: &NodeOutcome) -> Option<Outcome>
    ensures { result ≡ outcome_of_c told.now }
{
    let state = state_of(&told.state);
    match told.outcome {
        0 => Some(Outcome::Done),
        1 => Some(Outcome::Lost),
        2 => Some(Outcome::Read(state)),
        3 => Some(Outcome::Published),
        4 => Some(Outcome::Bundle(told.objects)),
        5 => Some(Outcome::Stepped(state, told.objects)),
        6 => Some(Outcome::Listed(state)),
        _ => None,
    }
}

/// The command that follows a command, by its outcome. 0: it is written. 112: the number of the command is none; 113: that of the outcome is none. Then nothing is
/// written.
#[unsafe(no_mangle)]
pub extern "C" fn wagtenib_node_next(
    command: &NodeCommand,
    outcome: &NodeOutcome,
    next: &mut NodeCommand,
) -> u32
    ensures { GivesNext result command.now outcome.now next.old next.new }
{
    let Some(node) = node_of(command) else {
        return codes::BAD_COMMAND;
    };
    let Some(told) = outcome_of(outcome) else {
        return codes::BAD_OUTCOME;
    };
    *next = of_node(&node.next(told));
    codes::OK
}

// Whether a flag is set.
fn is_set(flags: u32, flag: u32) -> bool
    requires { 0 < flag }
    ensures { result ≡ has_flag flags flag }
{
    flags / flag % 2 == 1
}

// A head beside a lock's text, if the flag is set.
fn other_if(lock: &[u8], flags: u32, flag: u32, head: &TreeHead) -> Option<Other>
    requires { 0 < flag }
    ensures { result ≡ other_of_c lock.now flags flag head.now }
{
    if is_set(flags, flag) {
        Some(Other {
            at: Point {
                size: head.tree_size,
                moment: head.timestamp,
            },
            same: has_root(lock, &head.root),
        })
    } else {
        None
    }
}

// The facts that a node finds, if the lock has this head.
fn found_with(lock: &[u8], head: Option<Point>, found: &NodeFound) -> Found
    ensures { result ≡ found_of_c lock.now head found.now }
{
    Found {
        register: head,
        seen: other_if(lock, found.flags, 1, &found.seen),
        published: other_if(lock, found.flags, 4, &found.published),
        listed: other_if(lock, found.flags, 8, &found.listed),
        guarded: is_set(found.flags, 16),
        guard: other_if(lock, found.flags, 2, &found.signed_head),
        stands: is_set(found.flags, 32),
        creates: is_set(found.flags, 64),
    }
}

// The number of the action of a node when it starts.
fn number_of_start(beginning: Beginning) -> u32
    ensures { result ≡ start_code beginning }
{
    match beginning {
        Beginning::Goes => codes::OK,
        Beginning::Creates => codes::CREATES_LOCK,
        Beginning::Gone => codes::LOCK_GONE,
        Beginning::BehindSeen => codes::BEHIND_SEEN,
        Beginning::BehindGuard => codes::BEHIND_SIGNED,
        Beginning::TwoRoots => codes::TWO_ROOTS,
        Beginning::GuardBehind => codes::SIGNED_BEHIND_LISTED,
        Beginning::BehindListed => codes::BEHIND_LISTED,
        Beginning::BehindPublished => codes::BEHIND_PUBLISHED,
    }
}

// The head of a lock's text, or none if there is no lock; or nothing if the bytes are no lock's text. A lock that exists has a text of at least one byte.
fn head_in(flags: u32, lock: &[u8]) -> Option<Option<Point>>
    ensures { result ≡ lock_of flags lock.now }
{
    if lock.is_empty() {
        return if is_set(flags, 128) { None } else { Some(None) };
    }
    let said = said_in(lock)?;
    Some(Some(Point {
        size: said.size,
        moment: said.state.moment,
    }))
}

/// Decides what a node does when it starts. 0: it continues from the lock's text. 116: it creates the lock. 117 to 123: it must do neither, for the first reason in
/// this order: 117 if there is no lock; otherwise 118, 120 or 119, 121, 122, 123. 114: the bytes are no lock's text, or there are none although the lock exists.
#[unsafe(no_mangle)]
pub extern "C" fn wagtenib_node_start(lock: &[u8], found: &NodeFound) -> u32
    ensures { StartsNode result lock.now found.now }
{
    let Some(head) = head_in(found.flags, lock) else {
        return codes::BAD_LOCK_TEXT;
    };
    number_of_start(start(found_with(lock, head, found)))
}
