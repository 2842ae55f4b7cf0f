// Front 0 retires and is resumed, shift after shift.
use crate::two_fronts::{closes, follows};
use std::test::Fail;

#[test]
fn a_front_goes_on_over_three_shifts(rt: HostRuntime) -> Result<(), Fail> {
    closes(
        &rt,
        rt.alloc(),
        (1, 0),
        "submit 0 41 -> 0
        submit 0 42 -> Full
        succeed 3 3 -> 0
        submit 0 42 -> 1
        publish 4 -> 1
        learn 0 -> 0
        size 0 -> 1
        succeed 5 5 -> 0
        size 0 -> 1
        ask 0 entries 0 0 -> 1
        submit 1 41 -> 2
        shutdown -> 3",
        "is-settled -> 0
        settle 9 -> 0
        publish 9 -> 2",
        "accepted -> 3
        receipt 0 -> 0 3
        receipt 1 -> 1 5
        receipt 2 -> 0 3",
    )
}

#[test]
fn a_succession_before_the_clock_is_refused(rt: HostRuntime) -> Result<(), Fail> {
    follows(
        &rt,
        rt.alloc(),
        4,
        0,
        "submit 0 41 -> 0
        succeed 3 3 -> 0
        submit 0 42 -> 1
        succeed 2 7 -> ClockBack
        take 0 1 7 -> 0
        publish 6 -> ClockBack
        publish 7 -> 2
        submit 0 43 -> 2",
    )
}

#[test]
fn the_emptied_ring_takes_again(rt: HostRuntime) -> Result<(), Fail> {
    follows(
        &rt,
        rt.alloc(),
        300,
        0,
        "submit-numbers 300 -> 300
        submit 0 41 -> Full
        succeed 1 1 -> 0
        publish 1 -> 300
        submit-numbers 300 -> 300
        submit 0 41 -> Full
        succeed 2 2 -> 0
        take 0 256 2 -> 0
        submit 0 41 -> 600",
    )
}

#[test]
fn a_successor_after_the_shutdown(rt: HostRuntime) -> Result<(), Fail> {
    closes(
        &rt,
        rt.alloc(),
        (4, 0),
        "submit 0 41 -> 0
        shutdown -> 1
        succeed 2 2 -> 0
        submit 0 42 -> Shutdown
        shutdown -> Shutdown
        publish 2 -> 1",
        "is-settled -> 1",
        "accepted -> 1
        receipt 0 -> 0 2",
    )
}
