use crate::steps::{Call, Due, play_each, play_piled};
use std::test::Fail;

#[test]
fn an_empty_bay_opens(rt: HostRuntime) -> Result<(), Fail> {
    const STEPS: [(Call, Due<'static>); 12] = [
        (Call::Open(64, 1, 0b11), Due::Refused(2)),
        (Call::Open(255, 1, 0b11), Due::Refused(2)),
        (Call::Open(3, 16, 0b11), Due::Refused(3)),
        (Call::Open(3, 255, 0b11), Due::Refused(3)),
        (Call::Open(64, 16, 0b10000), Due::Refused(2)),
        (Call::Open(3, 16, 0b10000), Due::Refused(3)),
        (Call::Open(3, 15, 0b10000), Due::At(7, 0)),
        (Call::Order, Due::Named(&[])),
        (Call::Open(3, 15, 0b1111), Due::Done),
        (Call::Open(63, 0, 0b1111), Due::Done),
        (Call::Order, Due::Named(&[3, 63])),
        (Call::Ask(63, 0b1111), Due::Named(&[63, 3])),
    ];
    play_each(&rt, 2, 0b1111, &STEPS)
}

#[test]
fn a_bay_at_rest_is_taken(rt: HostRuntime) -> Result<(), Fail> {
    const STEPS: [(Call, Due<'static>); 12] = [
        (Call::Open(3, 1, 0b0011), Due::Done),
        (Call::Open(3, 1, 0b0011), Due::Refused(5)),
        (Call::Open(3, 2, 0), Due::Refused(5)),
        (Call::Open(3, 1, 0b10000), Due::Refused(5)),
        (Call::Open(3, 16, 0b0011), Due::Refused(3)),
        (Call::Open(67, 1, 0b0011), Due::Refused(2)),
        (Call::Ask(3, 0b0100), Due::Refused(8)),
        (Call::Ask(3, 0b0011), Due::Named(&[3])),
        (Call::Confirm, Due::Done),
        (Call::Open(3, 1, 0b1111), Due::Refused(5)),
        (Call::Give(3, 0b0011), Due::Done),
        (Call::AllIn, Due::Says(true)),
    ];
    play_each(&rt, 2, 0b1111, &STEPS)
}

#[test]
fn no_bay_opens_while_a_slip_is_out(rt: HostRuntime) -> Result<(), Fail> {
    const STEPS: [(Call, Due<'static>); 16] = [
        (Call::Open(3, 1, 0b0011), Due::Done),
        (Call::Open(4, 1, 0b1111), Due::Done),
        (Call::Ask(3, 0b0001), Due::Named(&[3, 4])),
        (Call::Open(3, 1, 0b0011), Due::Refused(4)),
        (Call::Open(4, 1, 0b0011), Due::Refused(4)),
        (Call::Open(5, 1, 0b0011), Due::Refused(4)),
        (Call::Open(5, 1, 0), Due::Refused(4)),
        (Call::Open(5, 1, 0b10000), Due::Refused(4)),
        (Call::Open(64, 1, 0b0011), Due::Refused(2)),
        (Call::Open(64, 16, 0b0011), Due::Refused(2)),
        (Call::Open(3, 16, 0b0011), Due::Refused(3)),
        (Call::Open(5, 16, 0b10000), Due::Refused(3)),
        (Call::Confirm, Due::Done),
        (Call::Open(5, 1, 0b10000), Due::At(7, 0)),
        (Call::Open(5, 1, 0b0011), Due::Done),
        (Call::Order, Due::Named(&[3, 4, 5])),
    ];
    play_each(&rt, 2, 0b1111, &STEPS)
}

#[test]
fn a_claim_of_zero_opens(rt: HostRuntime) -> Result<(), Fail> {
    const STEPS: [(Call, Due<'static>); 12] = [
        (Call::Open(9, 0, 1), Due::At(7, 0)),
        (Call::Open(9, 0, 0), Due::Done),
        (Call::Open(9, 0, 0), Due::Refused(5)),
        (Call::Order, Due::Named(&[9])),
        (Call::AllIn, Due::Says(true)),
        (Call::Ask(9, 1), Due::Refused(8)),
        (Call::Ask(9, 0), Due::Named(&[9])),
        (Call::AllIn, Due::Says(true)),
        (Call::Open(10, 0, 0), Due::Refused(4)),
        (Call::Confirm, Due::Done),
        (Call::Open(10, 0, 0), Due::Done),
        (Call::Order, Due::Named(&[9, 10])),
    ];
    play_each(&rt, 2, 0, &STEPS)
}

#[test]
fn a_tall_claim_is_told_its_lowest_place(rt: HostRuntime) -> Result<(), Fail> {
    const STEPS: [(Call, Due<'static>); 10] = [
        (Call::Open(1, 1, 0x0010), Due::At(7, 1)),
        (Call::Open(1, 2, 0x0080), Due::At(7, 1)),
        (Call::Open(1, 1, 0x0100), Due::At(7, 0)),
        (Call::Open(1, 3, 0x0080), Due::At(7, 2)),
        (Call::Open(1, 3, 0x0100), Due::At(7, 0)),
        (Call::Open(1, 0, 0x0100), Due::At(7, 0)),
        (Call::Open(1, 2, 0x000F), Due::Done),
        (Call::Open(3, 15, 0x007F), Due::Done),
        (Call::Open(0, 0, 0x00FF), Due::Done),
        (Call::Order, Due::Named(&[0, 1, 3])),
    ];
    play_piled(&rt, &STEPS)
}
