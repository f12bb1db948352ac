use crate::steps::{Call, Due, play_each};
use std::test::Fail;

// Refusal 14 is reached by no call of a book: what is out is the sum of what is held.

#[test]
fn an_empty_bay_gives_and_ends_nothing(rt: HostRuntime) -> Result<(), Fail> {
    const STEPS: [(Call, Due<'static>); 9] = [
        (Call::Give(64, 0), Due::Refused(2)),
        (Call::Give(255, 1), Due::Refused(2)),
        (Call::Give(3, 0), Due::Refused(6)),
        (Call::Give(63, 1), Due::Refused(6)),
        (Call::End(64), Due::Refused(2)),
        (Call::End(255), Due::Refused(2)),
        (Call::End(0), Due::Refused(6)),
        (Call::End(63), Due::Refused(6)),
        (Call::Order, Due::Named(&[])),
    ];
    play_each(&rt, 2, 0b1111, &STEPS)
}

#[test]
fn a_bay_gives_what_it_holds(rt: HostRuntime) -> Result<(), Fail> {
    const STEPS: [(Call, Due<'static>); 19] = [
        (Call::Open(3, 1, 0b1111), Due::Done),
        (Call::Open(4, 1, 0b1111), Due::Done),
        (Call::Give(3, 0), Due::Done),
        (Call::Give(3, 1), Due::Refused(11)),
        (Call::Ask(3, 0b0011), Due::Named(&[3, 4])),
        (Call::Confirm, Due::Done),
        (Call::Give(3, 0b0100), Due::Refused(11)),
        (Call::Give(4, 0b0001), Due::Refused(11)),
        (Call::Give(3, 0b10000), Due::Refused(11)),
        (Call::Give(67, 0b0001), Due::Refused(2)),
        (Call::Give(3, 0), Due::Done),
        (Call::AllIn, Due::Says(false)),
        (Call::Give(3, 0b0001), Due::Done),
        (Call::AllIn, Due::Says(false)),
        (Call::Give(3, 0b0011), Due::Refused(11)),
        (Call::Give(3, 0b0010), Due::Done),
        (Call::AllIn, Due::Says(true)),
        (Call::Give(3, 0b0010), Due::Refused(11)),
        (Call::Ask(4, 0b1111), Due::Named(&[4, 3])),
    ];
    play_each(&rt, 2, 0b1111, &STEPS)
}

#[test]
fn an_ended_bay_is_empty(rt: HostRuntime) -> Result<(), Fail> {
    const STEPS: [(Call, Due<'static>); 20] = [
        (Call::Open(3, 1, 0b1111), Due::Done),
        (Call::Open(4, 1, 0b1111), Due::Done),
        (Call::Ask(3, 0b0011), Due::Named(&[3, 4])),
        (Call::Confirm, Due::Done),
        (Call::End(67), Due::Refused(2)),
        (Call::End(5), Due::Refused(6)),
        (Call::End(3), Due::Done),
        (Call::AllIn, Due::Says(true)),
        (Call::Order, Due::Named(&[4])),
        (Call::End(3), Due::Refused(6)),
        (Call::Give(3, 0), Due::Refused(6)),
        (Call::Ask(3, 0), Due::Refused(6)),
        // what it held is back
        (Call::Ask(4, 0b1111), Due::Named(&[4])),
        (Call::Withdraw, Due::Done),
        (Call::Open(3, 2, 0b0001), Due::Done),
        (Call::Give(3, 0b0001), Due::Refused(11)),
        (Call::Ask(3, 0b0010), Due::Refused(8)),
        (Call::End(3), Due::Done),
        (Call::End(4), Due::Done),
        (Call::Order, Due::Named(&[])),
    ];
    play_each(&rt, 2, 0b1111, &STEPS)
}

#[test]
fn no_bay_gives_or_ends_while_a_slip_is_out(rt: HostRuntime) -> Result<(), Fail> {
    const STEPS: [(Call, Due<'static>); 16] = [
        (Call::Open(3, 1, 0b1111), Due::Done),
        (Call::Open(4, 1, 0b1111), Due::Done),
        (Call::Ask(3, 0b0011), Due::Named(&[3, 4])),
        (Call::Give(3, 0b0001), Due::Refused(4)),
        (Call::Give(3, 0b0100), Due::Refused(4)),
        (Call::Give(4, 0), Due::Refused(4)),
        (Call::Give(5, 0), Due::Refused(4)),
        (Call::Give(64, 0), Due::Refused(2)),
        (Call::End(3), Due::Refused(4)),
        (Call::End(4), Due::Refused(4)),
        (Call::End(5), Due::Refused(4)),
        (Call::End(64), Due::Refused(2)),
        (Call::Confirm, Due::Done),
        (Call::Give(3, 0b0001), Due::Done),
        (Call::End(4), Due::Done),
        (Call::Order, Due::Named(&[3])),
    ];
    play_each(&rt, 2, 0b1111, &STEPS)
}
