//! Work with the tree of `ct_tree`.

ghost use Rattle.std.specs.Prelude.{◌≡◌, ◌<◌, length};

use crate::report::{report, show_root};
use ct_tree::{Nodes, Sha256Hash, leaf_hash};
use std::alloc::{AllocError, Global};
use std::io;
use std::time::{Duration, Instant};

// The number of roots, paths and proofs that are asked for.
const CALLS: u64 = 10_000;

// The distance between the indexes that are asked for, before they are reduced below the number of leaves.
const STEP: u64 = 7_919;

// The work to do with a tree.
#[derive(Clone, Copy)]
pub(crate) enum Task {
    // Print the times of appends, roots, paths, proofs and a copy.
    Time,
    // Print the results of a few calls.
    Show,
    // Print the root.
    Root,
    // Compute the path of the leaf in a third of the tree this number of times.
    Path { calls: u64 },
}

// A call of a tree.
#[derive(Clone, Copy)]
enum Call {
    Roots,
    Path,
    Proof,
    Copy,
}

// Makes a call at an index, and returns the number of hashes or leaves in its result, or whether the root there differs from the root of
// all.
fn answer(
    heap: Global,
    nodes: &Nodes<Sha256Hash>,
    call: Call,
    place: u64,
) -> Result<u64, AllocError> {
    let n = nodes.size();
    if n < 2 {
        return Ok(0);
    }
    match call {
        Call::Roots => Ok(u64::from(nodes.root_at(place % n) != nodes.root_at(n))),
        Call::Path => {
            let path = nodes.path(heap, place % n, n)?;
            Ok(path.len() as u64)
        }
        Call::Proof => {
            let proof = nodes.proof(heap, place % (n - 1) + 1, n)?;
            Ok(proof.len() as u64)
        }
        Call::Copy => {
            let copy = nodes.copy(heap)?;
            Ok(copy.size())
        }
    }
}

// Returns the sum of the answers to `count` calls at indexes from `first` on.
fn answers(
    heap: Global,
    nodes: &Nodes<Sha256Hash>,
    call: Call,
    first: u64,
    step: u64,
    count: u64,
) -> Result<u64, AllocError> {
    let mut sum = 0u64;
    for k in 0..count {
        let place = first.wrapping_add(k.wrapping_mul(step));
        sum = sum.wrapping_add(answer(heap, nodes, call, place)?);
    }
    Ok(sum)
}

// Makes calls, prints how long each of `parts` of them took, and returns the sum of the answers.
fn time_calls(
    rt: &HostRuntime,
    nodes: &Nodes<Sha256Hash>,
    what: &str,
    call: Call,
    count: u64,
    parts: u64,
) -> io::Result<u64> {
    let start = Instant::now(rt)?;
    let sum = answers(rt.alloc(), nodes, call, 0, STEP, count)?;
    report(rt, what, parts, start.elapsed(rt)?)?;
    Ok(sum)
}

// Prints how long roots, paths, proofs and a copy take.
fn time_all(rt: &HostRuntime, nodes: &Nodes<Sha256Hash>) -> io::Result<()> {
    let differ = time_calls(rt, nodes, "two roots", Call::Roots, CALLS, CALLS)?;
    let in_paths = time_calls(rt, nodes, "path", Call::Path, CALLS, CALLS)?;
    let in_proofs = time_calls(rt, nodes, "proof", Call::Proof, CALLS, CALLS)?;
    println!(rt; "checks {differ} {in_paths} {in_proofs}")?;
    time_calls(
        rt,
        nodes,
        "copy, for each leaf",
        Call::Copy,
        1,
        nodes.size(),
    )?;
    Ok(())
}

// Prints the same, and before it how long appends took.
fn time(rt: &HostRuntime, nodes: &Nodes<Sha256Hash>, appends: Duration) -> io::Result<()> {
    println!(rt; "{} leaves", nodes.size())?;
    report(rt, "leaf hash and append", nodes.size(), appends)?;
    time_all(rt, nodes)
}

// Prints the result of a hundred calls of a kind.
fn show_hundred(
    rt: &HostRuntime,
    nodes: &Nodes<Sha256Hash>,
    what: &str,
    call: Call,
) -> io::Result<()> {
    let sum = answers(rt.alloc(), nodes, call, 0, STEP, 100)?;
    println!(rt; "{what} {sum}")
}

// Prints the size, the root, and the result of a hundred calls of each kind.
fn show(rt: &HostRuntime, nodes: &Nodes<Sha256Hash>) -> io::Result<()> {
    println!(rt; "leaves {}", nodes.size())?;
    show_root(rt, &nodes.root_at(nodes.size()))?;
    show_hundred(rt, nodes, "roots that differ", Call::Roots)?;
    show_hundred(rt, nodes, "hashes in paths", Call::Path)?;
    show_hundred(rt, nodes, "hashes in proofs", Call::Proof)
}

// Prints how many hashes `calls` paths of one leaf have.
fn show_paths(rt: &HostRuntime, nodes: &Nodes<Sha256Hash>, calls: u64) -> io::Result<()> {
    let hashes = answers(rt.alloc(), nodes, Call::Path, nodes.size() / 3, 0, calls)?;
    println!(rt; "hashes in paths {hashes}")
}

// Appends the leaf hashes of `size` leaves, and returns how long it took.
fn fill(rt: &HostRuntime, nodes: &mut Nodes<Sha256Hash>, size: u64) -> io::Result<Duration> {
    let start = Instant::now(rt)?;
    for k in 0..size {
        nodes.push(&leaf_hash(&Sha256Hash, &k.to_be_bytes()))?;
    }
    start.elapsed(rt)
}

// Does a task with a filled tree. `appends` is how long the filling took.
fn perform(
    rt: &HostRuntime,
    nodes: &Nodes<Sha256Hash>,
    task: Task,
    appends: Duration,
) -> io::Result<()> {
    match task {
        Task::Time => time(rt, nodes, appends),
        Task::Show => show(rt, nodes),
        Task::Root => show_root(rt, &nodes.root_at(nodes.size())),
        Task::Path { calls } => show_paths(rt, nodes, calls),
    }
}

// Does a task with a tree of `size` leaves.
pub(crate) fn with_tree(rt: &HostRuntime, size: u64, task: Task) -> io::Result<()> {
    let mut nodes = Nodes::new(rt.alloc(), Sha256Hash);
    let appends = fill(rt, &mut nodes, size)?;
    perform(rt, &nodes, task, appends)
}
