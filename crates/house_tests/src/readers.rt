ghost use Rattle.std.specs.Prelude.{◌≡◌, length};

use crate::common::{head_of, submission};
use crate::two_fronts::{TwoFronts, follows};
use ct_codec::Refusal;
use ct_core::{Query, Reply};
use ct_house::{Front, Sequencer, open};
use ct_tree::Head;
use std::alloc::Global;
use std::process::Abort;
use std::sync::Wait;
use std::test::Fail;
use std::thread::{Threads, join_mut};

// The root of no leaves: SHA-256 of the empty string.
const EMPTY: [u8; 32] = [
    0xe3, 0xb0, 0xc4, 0x42, 0x98, 0xfc, 0x1c, 0x14, 0x9a, 0xfb, 0xf4, 0xc8, 0x99, 0x6f, 0xb9, 0x24,
    0x27, 0xae, 0x41, 0xe4, 0x64, 0x9b, 0x93, 0x4c, 0xa4, 0x95, 0x99, 0x1b, 0x78, 0x52, 0xb8, 0x55,
];

#[test]
fn a_front_sees_what_it_learnt(rt: HostRuntime) -> Result<(), Fail> {
    follows(
        &rt,
        rt.alloc(),
        4,
        0,
        "size 0 -> 0
        submit 0 41 -> 0
        take 0 1 1 -> 1
        publish 1 -> 1
        submit 0 42 -> 1
        take 0 1 2 -> 1
        publish 2 -> 2
        learn 0 -> 0
        learn 0 -> 0
        size 0 -> 2
        submit 0 43 -> 2
        take 0 1 3 -> 1
        publish 3 -> 3
        size 0 -> 3
        learn 1 -> 0
        size 1 -> 3",
    )
}

// Returns the timestamps of the heads that a front sees in a new house after a publication, and again after an older bulletin.
fn moments_seen<R: Wait>(rt: &R, alloc: Global) -> Result<(u64, u64), Refusal> {
    let mut house = TwoFronts::open(rt, alloc, 4, 1)?;
    let seen = house.moments_behind(rt, 2);
    house.abandon(rt);
    seen
}

#[test]
fn an_older_bulletin_takes_nothing_away(rt: HostRuntime) -> Result<(), Fail> {
    assert_eq!(rt; moments_seen(&rt, rt.alloc()), Ok((2, 2)));
    Ok(())
}

// The root is that of 3,000 leaves. The certificates are the two bytes of 0, of 1 and so on, ten at each of the timestamps 1 to 300.
#[test]
fn three_thousand_leaves_and_three_hundred_heads(rt: HostRuntime) -> Result<(), Fail> {
    follows(
        &rt,
        rt.alloc(),
        16,
        0,
        "grow-by-tens 300 -> 3000
        size 0 -> 3000
        ask 0 entries 2990 9999 -> 10
        proof-length 1230 3000 -> 12
        proof-length 1234 3000 -> UnknownSize
        submit 1 00 -> 3000
        ask 1 sth -> 3000 300 5c3ae2624a5831363910a6aa547b8fe914ca5e4ad1d82292c73aa6ba99fbaf68",
    )
}

// The root is that of 11,000 leaves. The certificates are the two bytes of 0, of 1 and so on, ten at each of the timestamps 1 to 1,100.
#[test]
fn eleven_thousand_leaves_and_eleven_hundred_heads(rt: HostRuntime) -> Result<(), Fail> {
    follows(
        &rt,
        rt.alloc(),
        16,
        0,
        "grow-by-tens 1100 -> 11000
        size 0 -> 11000
        ask 0 entries 10990 99999 -> 10
        proof-length 1230 11000 -> 14
        proof-length 10010 11000 -> 13
        proof-length 10014 11000 -> UnknownSize
        submit 1 00 -> 11000
        ask 1 sth -> 11000 1100 b5deed74caa519df4ba1dc36bf3def5455ce22b1b3e462e7c7141cc74b59ef09",
    )
}

// Returns the head that each of these fronts sees.
fn heads_seen(alloc: Global, fronts: &mut [Front]) -> Result<Vec<Head>, Refusal> {
    let mut heads = Vec::new(alloc);
    for place in 0..fronts.len() {
        heads.push(head_of(fronts[place].ask(alloc, &Query::GetSth))?)?;
    }
    Ok(heads)
}

// Returns the heads that the fronts see before a publication, and after it.
fn heads_around<R: Wait>(
    rt: &R,
    alloc: Global,
    house: &mut Sequencer,
    fronts: &mut [Front],
    now: u64,
) -> Result<(Vec<Head>, Vec<Head>), Refusal> {
    let before = heads_seen(alloc, fronts)?;
    house.publish(rt, alloc, now)?;
    let after = heads_seen(alloc, fronts)?;
    Ok((before, after))
}

// Reports whether sixteen heads were seen, each with no leaf and with this timestamp.
fn are_empty_heads(heads: &[Head], moment: u64) -> bool {
    let empty = Head {
        tree_size: 0,
        timestamp: moment,
        root: EMPTY,
    };
    for seen in heads {
        if *seen != empty {
            return false;
        }
    }
    heads.len() == 16
}

// Reports whether sixteen fronts of a house opened at 7 see that head, and the one published at 9.
fn see_both_heads<R: Wait>(rt: &R, alloc: Global) -> Result<bool, Refusal> {
    let (mut house, mut fronts) = open(rt, alloc, 16, 4, 7)?;
    let seen = heads_around(rt, alloc, &mut house, &mut fronts, 9);
    house.abandon(rt, Vec::new(alloc));
    let (before, after) = seen?;
    Ok(are_empty_heads(&before, 7) && are_empty_heads(&after, 9))
}

#[test]
fn each_front_sees_the_opening_and_the_first_publication(rt: HostRuntime) -> Result<(), Fail> {
    assert_eq!(rt; see_both_heads(&rt, rt.alloc()), Ok(true));
    Ok(())
}

// Publishes five times, repeating each refused call once, and learns of each publication. Returns how often the head seen was the one
// published.
fn publish_again<R: Wait>(rt: &R, house: &mut TwoFronts) -> Result<u64, Refusal> {
    let mut seen = 0u64;
    for now in 1..6u64 {
        if house.publish(rt, now).is_err() {
            house.publish(rt, now)?;
        }
        house.learn(0)?;
        if house.head(0)?.timestamp == now {
            seen = seen.saturating_add(1);
        }
    }
    Ok(seen)
}

// The same in a new house.
fn published_again<R: Wait>(rt: &R, alloc: Global) -> Result<u64, Refusal> {
    let mut house = TwoFronts::open(rt, alloc, 4, 0)?;
    let seen = publish_again(rt, &mut house);
    house.abandon(rt);
    seen
}

#[test]
fn a_refused_publication_is_made_again(rt: HostRuntime) -> Result<(), Fail> {
    assert_eq!(rt; published_again(&rt, rt.alloc()), Ok(5));
    Ok(())
}

// Asks for the last head 10,000 times. No result may be a refusal, and the size must never fall.
fn expect_sizes_rise<R: Abort>(rt: &R, alloc: Global, front: &mut Front) {
    let mut last = 0;
    for _ in 0..10_000u32 {
        match front.ask(alloc, &Query::GetSth) {
            Ok(Reply::Sth(head)) => {
                assert!(rt; last <= head.tree_size);
                last = head.tree_size;
            }
            _ => panic!(rt; "no head"),
        }
    }
}

// Submits a hundred certificates, each of which is one byte.
fn submit_hundred(alloc: Global, front: &mut Front) -> Result<(), Refusal> {
    for byte in 0..100u8 {
        match front.submit(submission(alloc, &[byte])?) {
            Ok(_) => {}
            Err((refusal, _)) => return Err(refusal),
        }
    }
    Ok(())
}

// Settles one item and publishes it, at each of the timestamps 1 to 100. Returns the size of the last head.
fn publish_hundred<R: Threads + Wait + Sync>(
    rt: &R,
    alloc: Global,
    house: &mut Sequencer,
) -> Result<u64, Refusal>
    requires { length house.old.lanes ≡ 2 }
{
    let mut size = 0u64;
    for now in 1..101u64 {
        house.take(rt, alloc, 0, 1, now)?;
        size = house.publish(rt, alloc, now)?.tree_size;
    }
    Ok(size)
}

// Publishes a hundred heads in one thread during 10,000 queries in another. Returns the size of the last head.
fn reads_beside_publications<R: Threads + Wait + Abort + Sync>(
    rt: &R,
    alloc: Global,
    house: &mut Sequencer,
    front: &mut Front,
) -> Result<u64, Refusal>
    requires { length house.old.lanes ≡ 2 }
{
    let (_, size) = join_mut(
        rt,
        &mut || { expect_sizes_rise(rt, alloc, front) },
        &mut ||
            requires { length house.now.lanes ≡ 2 }
        { publish_hundred(rt, alloc, house) },
    );
    size
}

// Submits a hundred certificates to one front, and queries the other during the publications.
fn submit_and_read<R: Threads + Wait + Abort + Sync>(
    rt: &R,
    alloc: Global,
    house: &mut Sequencer,
    zero: &mut Front,
    one: &mut Front,
) -> Result<u64, Refusal>
    requires { length house.old.lanes ≡ 2 }
{
    submit_hundred(alloc, zero)?;
    reads_beside_publications(rt, alloc, house, one)
}

fn reads_in_a_house<R: Threads + Wait + Abort + Sync>(
    rt: &R,
    alloc: Global,
) -> Result<u64, Refusal> {
    let TwoFronts {
        alloc,
        mut house,
        mut zero,
        mut one,
    } = TwoFronts::open(rt, alloc, 128, 0)?;
    let size = submit_and_read(rt, alloc, &mut house, &mut zero, &mut one);
    house.abandon(rt, Vec::new(alloc));
    size
}

#[test]
fn sizes_never_fall_beside_publications(rt: HostRuntime) -> Result<(), Fail> {
    assert_eq!(rt; reads_in_a_house(&rt, rt.alloc()), Ok(100));
    Ok(())
}
