use crate::steps::{Call, Due, play_each};
use std::test::Fail;

// Refusal 10 of order is reached by no call of a book: what was granted leaves an order.

#[test]
fn a_new_book_names_no_bay(rt: HostRuntime) -> Result<(), Fail> {
    const STEPS: [(Call, Due<'static>); 4] = [
        (Call::AllIn, Due::Says(true)),
        (Call::Order, Due::Named(&[])),
        (Call::LongOrder, Due::Named(&[])),
        (Call::ShortOrder, Due::Refused(12)),
    ];
    play_each(&rt, 2, 0b1111, &STEPS)
}

#[test]
fn questions_are_answered_while_a_slip_is_out(rt: HostRuntime) -> Result<(), Fail> {
    const STEPS: [(Call, Due<'static>); 16] = [
        (Call::Open(3, 1, 0b1111), Due::Done),
        (Call::Open(1, 1, 0b1111), Due::Done),
        (Call::AllIn, Due::Says(true)),
        (Call::Order, Due::Named(&[1, 3])),
        (Call::ShortOrder, Due::Refused(12)),
        (Call::Ask(3, 0b0011), Due::Named(&[3, 1])),
        (Call::AllIn, Due::Says(false)),
        (Call::Order, Due::Named(&[3, 1])),
        (Call::LongOrder, Due::Named(&[3, 1])),
        (Call::ShortOrder, Due::Refused(12)),
        (Call::Confirm, Due::Done),
        (Call::AllIn, Due::Says(false)),
        (Call::Order, Due::Named(&[3, 1])),
        (Call::Give(3, 0b0011), Due::Done),
        (Call::AllIn, Due::Says(true)),
        (Call::Order, Due::Named(&[1, 3])),
    ];
    play_each(&rt, 2, 0b1111, &STEPS)
}

const ALL: [u8; 64] = [
    0, 1, 2, 3, 4, 5, 6, 7, 8, 9, 10, 11, 12, 13, 14, 15, 16, 17, 18, 19, 20, 21, 22, 23, 24, 25,
    26, 27, 28, 29, 30, 31, 32, 33, 34, 35, 36, 37, 38, 39, 40, 41, 42, 43, 44, 45, 46, 47, 48, 49,
    50, 51, 52, 53, 54, 55, 56, 57, 58, 59, 60, 61, 62, 63,
];

#[test]
fn every_bay_is_open(rt: HostRuntime) -> Result<(), Fail> {
    let opens = ALL.map(|bay| (Call::Open(bay, bay % 16, 0b0001), Due::Done));
    let asked: [(Call, Due<'static>); 10] = [
        (Call::AllIn, Due::Says(true)),
        (Call::Order, Due::Named(&ALL)),
        (Call::LongOrder, Due::Named(&ALL)),
        (Call::ShortOrder, Due::Refused(12)),
        (Call::Open(64, 0, 0), Due::Refused(2)),
        (Call::Open(63, 0, 0), Due::Refused(5)),
        (Call::Ask(0, 0b0001), Due::Named(&ALL)),
        (Call::Withdraw, Due::Done),
        (Call::End(63), Due::Done),
        (Call::Order, Due::Named(&ALL[0..63])),
    ];
    let mut steps = Vec::new(rt.alloc());
    steps.extend_from_slice(&opens)?;
    steps.extend_from_slice(&asked)?;
    play_each(&rt, 2, 0b1111, steps.as_slice())
}
