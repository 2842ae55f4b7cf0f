//! Work over the sequencing core of `ct_core`.

use crate::core_work as work;
use crate::core_work::{Kind, Reading};
use crate::prepared::prepare_all;
use crate::report::{report, show_root};
use ct_codec::Refusal;
use ct_core::Core;
use std::alloc::Global;
use std::time::{Duration, Instant};

// The number of items that are prepared at a time.
const BATCH: u64 = 1_000;

// Returns how long the core takes to settle items of certificates from the one with the number `first` on. The preparation of the items is
// not timed.
fn settling(
    rt: &HostRuntime,
    core: &mut Core,
    first: u64,
    count: u64,
    moment: u64,
) -> anyhow::Result<Duration> {
    let items = prepare_all(rt.alloc(), first, count, moment)?;
    let start = Instant::now(rt)?;
    work::settle_all(rt.alloc(), core, items)?;
    Ok(start.elapsed(rt)?)
}

// Prints how long it takes to settle the items of the first `size` certificates, in whole batches.
fn time_settling(rt: &HostRuntime, core: &mut Core, what: &str, size: u64) -> anyhow::Result<()> {
    let mut time = Duration::ZERO;
    for batch in 0..size / BATCH {
        let first = batch.wrapping_mul(BATCH);
        time = time.saturating_add(settling(rt, core, first, BATCH, 1)?);
    }
    Ok(report(rt, what, size, time)?)
}

// Returns how long publications take at the timestamps from `first` on.
fn publishing(
    rt: &HostRuntime,
    core: &mut Core,
    first: u64,
    count: u64,
) -> anyhow::Result<Duration> {
    let start = Instant::now(rt)?;
    for k in 0..count {
        core.publish(rt.alloc(), first.wrapping_add(k))?;
    }
    Ok(start.elapsed(rt)?)
}

// Prints how long such publications take.
fn time_publishing(
    rt: &HostRuntime,
    core: &mut Core,
    what: &str,
    first: u64,
    count: u64,
) -> anyhow::Result<()> {
    let time = publishing(rt, core, first, count)?;
    Ok(report(rt, what, count, time)?)
}

// Prints how long publications take with ten new entries each, of certificates from the one with the number `first` on.
fn time_tens(rt: &HostRuntime, core: &mut Core, first: u64) -> anyhow::Result<()> {
    let mut time = Duration::ZERO;
    for k in 0..10u64 {
        let moment = k.wrapping_add(20);
        settling(rt, core, first.wrapping_add(k.wrapping_mul(10)), 10, moment)?;
        time = time.saturating_add(publishing(rt, core, moment, 1)?);
    }
    Ok(report(rt, "publish, ten entries new,", 10, time)?)
}

// Prints how long settling and publishing take on a new core, up to `size` entries.
fn time_growth(rt: &HostRuntime, core: &mut Core, size: u64) -> anyhow::Result<()> {
    time_settling(rt, core, "settle_one", size)?;
    time_settling(rt, core, "settle_one of a repeat", BATCH)?;
    time_publishing(rt, core, "publish, all entries new,", 2, 1)?;
    time_publishing(rt, core, "publish, nothing new,", 3, 10)?;
    time_tens(rt, core, size)
}

// Prints the sum of the numbers found by these queries or reads, and how long each one took.
fn time_reading(
    rt: &HostRuntime,
    core: &Core,
    reading: Reading,
    found: &str,
    what: &str,
) -> anyhow::Result<()> {
    let start = Instant::now(rt)?;
    let sum = work::sum_of(rt.alloc(), core, reading)?;
    let time = start.elapsed(rt)?;
    println!(rt; "{found} {sum}")?;
    Ok(report(rt, what, work::count_of(reading), time)?)
}

// Prints this for queries all over a log of `size` entries.
fn time_answers(
    rt: &HostRuntime,
    core: &Core,
    size: u64,
    kind: Kind,
    found: &str,
    what: &str,
) -> anyhow::Result<()> {
    let queries = work::queries(rt.alloc(), kind, size)?;
    time_reading(rt, core, Reading::Queries(&queries), found, what)
}

// Prints this for records, from the settlement's list and from a vector.
fn time_records(rt: &HostRuntime, core: &Core) -> anyhow::Result<()> {
    let what = "records of leaves";
    time_reading(rt, core, Reading::List, what, "record read")?;
    let records = work::all_records(rt.alloc(), core)?;
    time_reading(
        rt,
        core,
        Reading::Vector(&records),
        what,
        "record read from a vector",
    )
}

// Prints this for all of these.
fn time_readings(rt: &HostRuntime, core: &Core, size: u64) -> anyhow::Result<()> {
    time_answers(
        rt,
        core,
        size,
        Kind::Proof,
        "audit paths of leaves",
        "get-proof-by-hash",
    )?;
    time_answers(
        rt,
        core,
        size,
        Kind::Receipt,
        "receipts of leaves",
        "receipt",
    )?;
    time_answers(
        rt,
        core,
        size,
        Kind::Entry,
        "entries shown",
        "get-entries of one",
    )?;
    time_records(rt, core)
}

// Prints all times on a new core.
fn time(rt: &HostRuntime, core: &mut Core, size: u64) -> anyhow::Result<()> {
    println!(rt; "{size} entries")?;
    time_growth(rt, core, size)?;
    time_readings(rt, core, size)?;
    println!(rt; "size {}", core.published().last_head().tree_size)?;
    Ok(())
}

// Settles a hundred items of the certificates from the one with the number `first` on, and returns how many of them were not repeats.
fn settle_hundred(heap: Global, core: &mut Core, first: u64) -> Result<u64, Refusal> {
    let items = prepare_all(heap, first, 100, 1)?;
    work::settle_all(heap, core, items)
}

// Publishes, and prints the head.
fn show_head(rt: &HostRuntime, core: &mut Core) -> anyhow::Result<()> {
    let head = core.publish(rt.alloc(), 2)?;
    println!(rt; "records {}", core.published().settlement().len())?;
    println!(rt; "entries {}", head.tree_size)?;
    Ok(show_root(rt, &head.root)?)
}

// Does a fixed amount of work on a new core: some certificates of the first hundred are repeated.
fn show(rt: &HostRuntime, core: &mut Core) -> anyhow::Result<()> {
    let firsts = settle_hundred(rt.alloc(), core, 0)?;
    let more = settle_hundred(rt.alloc(), core, 60)?;
    println!(rt; "firsts {firsts}\nfirsts {more}")?;
    show_head(rt, core)
}

// Times the settling of `size` certificates of 1,500 bytes, in whole thousands. Then it times repeats, publications, audit paths by leaf
// hash, receipts, entries, and records. Without a size, it does a fixed amount of work.
pub(crate) fn with_core(rt: &HostRuntime, size: Option<u64>) -> anyhow::Result<()> {
    let mut core = Core::open(rt.alloc(), 0)?;
    match size {
        Some(size) => time(rt, &mut core, size),
        None => show(rt, &mut core),
    }
}
