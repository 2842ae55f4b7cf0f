//! Work that is timed: with the sequencing core, with the tree and its tiles, and with steps of a tiled log. Without arguments it does a
//! fixed amount of each and prints the results. Otherwise the first argument selects the work, and the numbers after it say how much:
//!
//! - `core ENTRIES` prints how many nanoseconds each call of the sequencing core takes.
//! - `tree LEAVES` prints the same for `ct_tree`, and `batch LEAVES WORKERS` for one leaf that is hashed among this number of leaves.
//! - `tree append LEAVES` and `tree take-in LEAVES BATCH` build a log and print its root. The first uses `Nodes`. The second uses tiles,
//!   and adds BATCH leaves at a time.
//! - `tree path LEAVES CALLS` and `tree tile-path LEAVES CALLS` make the audit path of a leaf in a third of the log CALLS times, from
//!   `Nodes` and from tiles, and print how many hashes these paths have.
//! - `step LEAVES BATCH STEPS` makes STEPS steps of a log with an invented right edge, and prints the line of the last one. Each has BATCH
//!   submissions, and begins with the same state of LEAVES leaves.
#![tactic(auto)]

mod batches;
mod core_work;
mod cores;
mod prepared;
mod report;
mod steps;
mod tiles;
mod trees;

use crate::trees::Task;
use std::env;
use std::thread::Threads;

// Returns the number at an index of the arguments, or 0 if there is none.
fn number(words: &[String], place: usize) -> u64 {
    match words.get(place) {
        Some(word) => word.parse::<u64>().unwrap_or(0),
        None => 0,
    }
}

// Returns the first of these arguments that is not a number.
fn other_word(words: &[String]) -> Option<&String> {
    words.iter().find(|word| word.parse::<u64>().is_err())
}

// Does a fixed amount of each work.
fn show_all<R: Threads + Sync>(rt: &HostRuntime, threads: &R) -> anyhow::Result<()> {
    cores::with_core(rt, None)?;
    trees::with_tree(rt, 1_000, Task::Show)?;
    tiles::take_in(rt, 1_000, 7)?;
    tiles::paths(rt, 1_000, 10)?;
    batches::show(rt, threads)?;
    steps::show(rt, 1_000, 30, 2)
}

// Does the work with a name, as much as the numbers after it say.
fn work<R: Threads + Sync>(
    rt: &HostRuntime,
    threads: &R,
    name: &str,
    numbers: &[String],
) -> anyhow::Result<()> {
    let first = number(numbers, 0);
    let second = number(numbers, 1);
    match name {
        "core" => cores::with_core(rt, Some(first)),
        "tree" => Ok(trees::with_tree(rt, first, Task::Time)?),
        "append" => Ok(trees::with_tree(rt, first, Task::Root)?),
        "path" => Ok(trees::with_tree(rt, first, Task::Path { calls: second })?),
        "batch" => Ok(batches::time(rt, threads, first, second)?),
        "take-in" => Ok(tiles::take_in(rt, first, second)?),
        "tile-path" => tiles::paths(rt, first, second),
        "step" => steps::show(rt, first, second, number(numbers, 2)),
        _ => {
            println!(rt; "no work: {name}")?;
            Ok(())
        }
    }
}

// Does the work with a name, if the arguments after it are numbers.
fn try_work<R: Threads + Sync>(
    rt: &HostRuntime,
    threads: &R,
    name: &str,
    words: &[String],
) -> anyhow::Result<()> {
    match other_word(words) {
        Some(word) => {
            println!(rt; "no number: {word}")?;
            Ok(())
        }
        None => work(rt, threads, name, words),
    }
}

// Does the work that the arguments select. `tree` may precede the name of a work that has a name of its own.
fn run<R: Threads + Sync>(rt: &HostRuntime, threads: &R, words: &[String]) -> anyhow::Result<()> {
    match words {
        [tree, name, numbers @ ..] if tree.as_str() == "tree" && !numbers.is_empty() => {
            try_work(rt, threads, name, numbers)
        }
        [name, numbers @ ..] => try_work(rt, threads, name, numbers),
        [] => show_all(rt, threads),
    }
}

fn main(rt: HostRuntime) -> anyhow::Result<()> {
    let words: Vec<String> = env::args(&rt)?.collect(rt.alloc())?;
    run(&rt, &rt, words.get(1..).unwrap_or_default())
}
