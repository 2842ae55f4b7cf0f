// A batch that is large enough to be hashed by four workers.
use crate::refused_growths::house::House;
use crate::refused_growths::refused::Refused;
use ct_codec::Refusal;
use ct_tree::Head;
use std::alloc::Global;
use std::process::Abort;
use std::sync::Wait;
use std::test::Fail;
use std::thread::Threads;

// The root of 40 leaves at the timestamp 1, whose certificates are 7,000 bytes 0, 7,000 bytes 1 and so on, computed with Python's hashlib.
const ROOT: [u8; 32] = [
    0xe9, 0xe7, 0xa8, 0xe1, 0x59, 0xfc, 0x44, 0x76, 0x88, 0x35, 0xa6, 0x4e, 0x74, 0xec, 0x1f, 0xca,
    0x85, 0xf4, 0xfc, 0x84, 0xa5, 0xee, 0xe3, 0xb8, 0x89, 0x91, 0x37, 0xf3, 0x12, 0x7a, 0x55, 0x4f,
];

// Returns how many of the forty certificates are accepted before the first that is not.
fn submit_forty(house: &mut House) -> u8 {
    for number in 0..40u8 {
        if house.ticket(0, &[number; 7000]) != Ok(u64::from(number)) {
            return number;
        }
    }
    40
}

// Reports whether the forty are settled, and a head of them published.
fn are_published<R: Threads + Wait + Sync>(rt: &R, house: &mut House) -> bool {
    let head = Head {
        tree_size: 40,
        timestamp: 1,
        root: ROOT,
    };
    house.take_all(rt, 1).is_ok_and(|count| count <= 40) && house.publish(rt, 1) == Ok(head)
}

// Submits, settles and publishes the batch, and returns the refused calls.
fn refused_in_batch<R: Threads + Wait + Abort + Sync>(
    rt: &R,
    alloc: Global,
) -> Result<Refused, Refusal> {
    let mut house = House::open(rt, alloc, 64)?;
    assert!(rt; submit_forty(&mut house) == 40);
    assert!(rt; are_published(rt, &mut house));
    Ok(house.abandon(rt))
}

#[test]
fn a_large_batch(rt: HostRuntime) -> Result<(), Fail> {
    refused_in_batch(&rt, rt.alloc())?.say(&rt)
}
