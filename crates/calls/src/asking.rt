use crate::steps::{Call, Due, play_counted, play_each};
use std::test::Fail;

#[test]
fn an_empty_bay_asks_in_vain(rt: HostRuntime) -> Result<(), Fail> {
    const STEPS: [(Call, Due<'static>); 8] = [
        (Call::Ask(64, 1), Due::Refused(2)),
        (Call::Ask(255, 0b10000), Due::Refused(2)),
        (Call::Ask(3, 1), Due::Refused(6)),
        (Call::Ask(3, 0), Due::Refused(6)),
        (Call::Ask(63, 0b10000), Due::Refused(6)),
        (Call::ShortAsk(3, 0), Due::Refused(6)),
        (Call::ShortAsk(64, 0), Due::Refused(2)),
        (Call::Order, Due::Named(&[])),
    ];
    play_each(&rt, 2, 0b1111, &STEPS)
}

#[test]
fn no_bay_asks_while_a_slip_is_out(rt: HostRuntime) -> Result<(), Fail> {
    const STEPS: [(Call, Due<'static>); 12] = [
        (Call::Open(3, 1, 0b1111), Due::Done),
        (Call::Open(4, 1, 0b1111), Due::Done),
        (Call::Ask(3, 0b0001), Due::Named(&[3, 4])),
        (Call::Ask(3, 0b0010), Due::Refused(4)),
        (Call::Ask(4, 0b0010), Due::Refused(4)),
        (Call::Ask(4, 0), Due::Refused(4)),
        (Call::Ask(5, 0), Due::Refused(4)),
        (Call::Ask(3, 0b10000), Due::Refused(4)),
        (Call::ShortAsk(3, 0b0010), Due::Refused(4)),
        (Call::Ask(64, 0b0010), Due::Refused(2)),
        (Call::Withdraw, Due::Done),
        (Call::Ask(4, 0b1111), Due::Named(&[4, 3])),
    ];
    play_each(&rt, 2, 0b1111, &STEPS)
}

#[test]
fn an_ask_stays_within_the_claim(rt: HostRuntime) -> Result<(), Fail> {
    const STEPS: [(Call, Due<'static>); 12] = [
        (Call::Open(3, 1, 0b0011), Due::Done),
        (Call::Open(4, 1, 0b1111), Due::Done),
        (Call::Ask(3, 0b0100), Due::Refused(8)),
        (Call::Ask(3, 0b0111), Due::Refused(8)),
        (Call::ShortAsk(3, 0b0100), Due::Refused(8)),
        (Call::Ask(4, 0b1100), Due::Named(&[3, 4])),
        (Call::Confirm, Due::Done),
        // the pile has no room for it either
        (Call::Ask(3, 0b1100), Due::Refused(8)),
        (Call::Ask(3, 0b0001), Due::Named(&[3, 4])),
        (Call::Confirm, Due::Done),
        (Call::Ask(3, 0b0011), Due::Refused(8)),
        (Call::Ask(3, 0b0010), Due::Named(&[3, 4])),
    ];
    play_each(&rt, 2, 0b1111, &STEPS)
}

#[test]
fn a_sum_without_a_value_is_above_the_claim(rt: HostRuntime) -> Result<(), Fail> {
    const STEPS: [(Call, Due<'static>); 9] = [
        (Call::Open(3, 1, 0xFFFF), Due::Done),
        (Call::Ask(3, 0xFFFF), Due::Named(&[3])),
        (Call::Confirm, Due::Done),
        (Call::Ask(3, 1), Due::Refused(8)),
        (Call::Ask(3, 0xFFFF), Due::Refused(8)),
        (Call::Ask(3, 0), Due::Named(&[3])),
        (Call::Confirm, Due::Done),
        (Call::Give(3, 0xFFFF), Due::Done),
        (Call::Ask(3, 1), Due::Named(&[3])),
    ];
    play_each(&rt, 2, 0xFFFF, &STEPS)
}

#[test]
fn a_sheet_has_the_order_after_the_grant(rt: HostRuntime) -> Result<(), Fail> {
    const STEPS: [(Call, Due<'static>); 9] = [
        (Call::Open(7, 1, 0b1111), Due::Done),
        (Call::Open(2, 1, 0b1111), Due::Done),
        (Call::Open(5, 1, 0), Due::Done),
        (Call::Ask(7, 0b0011), Due::Named(&[5, 7, 2])),
        (Call::Confirm, Due::Done),
        (Call::LongAsk(7, 0b1100), Due::Named(&[5, 7, 2])),
        (Call::Confirm, Due::Done),
        (Call::End(2), Due::Done),
        (Call::Ask(7, 0), Due::Named(&[5, 7])),
    ];
    play_each(&rt, 2, 0b1111, &STEPS)
}

#[test]
fn short_and_put_off_and_a_short_sheet(rt: HostRuntime) -> Result<(), Fail> {
    const STEPS: [(Call, Due<'static>); 17] = [
        (Call::Open(0, 1, 0b1111), Due::Done),
        (Call::Open(1, 2, 0b1111), Due::Done),
        (Call::Ask(0, 0b0011), Due::Named(&[0, 1])),
        (Call::Confirm, Due::Done),
        (Call::Ask(1, 0b1101), Due::At(9, 0)),
        (Call::ShortAsk(1, 0b1101), Due::At(9, 0)),
        (Call::Ask(1, 0b1000), Due::Refused(10)),
        (Call::ShortAsk(1, 0b1000), Due::Refused(10)),
        (Call::LongAsk(1, 0b1000), Due::Refused(10)),
        (Call::ShortAsk(0, 0b0100), Due::Refused(12)),
        (Call::ShortAsk(0, 0), Due::Refused(12)),
        // nothing was taken
        (Call::Ask(0, 0b1100), Due::Named(&[0, 1])),
        (Call::Withdraw, Due::Done),
        (Call::Ask(0, 0b0100), Due::Named(&[0, 1])),
        (Call::Confirm, Due::Done),
        (Call::End(0), Due::Done),
        (Call::Ask(1, 0b1101), Due::Named(&[1])),
    ];
    play_each(&rt, 2, 0b1111, &STEPS)
}

// The places above 0 are told on the counted kinds.
#[test]
fn a_short_ask_is_told_its_lowest_place(rt: HostRuntime) -> Result<(), Fail> {
    const STEPS: [(Call, Due<'static>); 19] = [
        (Call::Open(0, 0, 0x0001_0000_0000_00FF), Due::Done),
        (Call::Open(1, 1, 0x0002_0000_0000_000F), Due::Done),
        (Call::Open(2, 2, 0x0004_0000_0000_000F), Due::Done),
        (Call::Open(3, 3, 0x0010_0000_0000_007F), Due::Done),
        (Call::Open(4, 4, 0x0020_0000_0000_007F), Due::Done),
        (
            Call::Ask(1, 0x0002_0000_0000_0003),
            Due::Named(&[1, 0, 2, 3, 4]),
        ),
        (Call::Confirm, Due::Done),
        (Call::Ask(2, 0x0004_0000_0000_000D), Due::At(9, 1)),
        (Call::ShortAsk(2, 0x000D), Due::At(9, 1)),
        (Call::Ask(3, 0x0040), Due::Named(&[1, 2, 3, 0, 4])),
        (Call::Confirm, Due::Done),
        (Call::Ask(4, 0x0040), Due::At(9, 2)),
        (Call::Ask(0, 0x00FF), Due::At(9, 0)),
        (Call::End(3), Due::Done),
        (
            Call::Ask(0, 0x0001_0000_0000_00F0),
            Due::Named(&[1, 0, 2, 4]),
        ),
        (Call::Confirm, Due::Done),
        (Call::Ask(2, 0x000D), Due::At(9, 0)),
        (Call::Ask(2, 0x000C), Due::Refused(10)),
        (Call::Ask(4, 0x007F), Due::At(9, 0)),
    ];
    play_counted(&rt, &STEPS)
}
