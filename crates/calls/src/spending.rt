use crate::steps::{Call, Due, play_each};
use std::test::Fail;

#[test]
fn a_confirmed_portion_stays(rt: HostRuntime) -> Result<(), Fail> {
    const STEPS: [(Call, Due<'static>); 9] = [
        (Call::Open(3, 1, 0b1111), Due::Done),
        (Call::Ask(3, 0b0011), Due::Named(&[3])),
        (Call::Confirm, Due::Done),
        (Call::AllIn, Due::Says(false)),
        (Call::Ask(3, 0b0100), Due::Named(&[3])),
        (Call::Confirm, Due::Done),
        (Call::Give(3, 0b1000), Due::Refused(11)),
        (Call::Give(3, 0b0111), Due::Done),
        (Call::AllIn, Due::Says(true)),
    ];
    play_each(&rt, 2, 0b1111, &STEPS)
}

#[test]
fn a_withdrawn_portion_goes_back(rt: HostRuntime) -> Result<(), Fail> {
    const STEPS: [(Call, Due<'static>); 17] = [
        (Call::Open(3, 1, 0b1111), Due::Done),
        (Call::Open(4, 1, 0b1111), Due::Done),
        (Call::Ask(3, 0b0011), Due::Named(&[3, 4])),
        (Call::Withdraw, Due::Done),
        (Call::AllIn, Due::Says(true)),
        (Call::Order, Due::Named(&[3, 4])),
        // the whole is there
        (Call::Ask(4, 0b1111), Due::Named(&[4, 3])),
        (Call::Withdraw, Due::Done),
        (Call::Ask(3, 0b0011), Due::Named(&[3, 4])),
        (Call::Confirm, Due::Done),
        // only the portion goes back
        (Call::Ask(3, 0b0100), Due::Named(&[3, 4])),
        (Call::Withdraw, Due::Done),
        (Call::Give(3, 0b0100), Due::Refused(11)),
        (Call::Ask(3, 0b0100), Due::Named(&[3, 4])),
        (Call::Confirm, Due::Done),
        (Call::Give(3, 0b0111), Due::Done),
        (Call::AllIn, Due::Says(true)),
    ];
    play_each(&rt, 2, 0b1111, &STEPS)
}

#[test]
fn another_book_hands_the_slip_back(rt: HostRuntime) -> Result<(), Fail> {
    const STEPS: [(Call, Due<'static>); 14] = [
        (Call::Open(3, 1, 0b1111), Due::Done),
        (Call::Ask(3, 0b0011), Due::Named(&[3])),
        (Call::ConfirmThere, Due::Refused(13)),
        (Call::WithdrawThere, Due::Refused(13)),
        (Call::OpenThere(3, 1, 0b1111), Due::Done),
        (Call::ConfirmThere, Due::Refused(13)),
        (Call::WithdrawThere, Due::Refused(13)),
        (Call::Ask(3, 0), Due::Refused(4)),
        (Call::Confirm, Due::Done),
        (Call::Ask(3, 0b1100), Due::Named(&[3])),
        (Call::WithdrawThere, Due::Refused(13)),
        (Call::ConfirmThere, Due::Refused(13)),
        (Call::Withdraw, Due::Done),
        (Call::Ask(3, 0b1100), Due::Named(&[3])),
    ];
    play_each(&rt, 2, 0b1111, &STEPS)
}

#[test]
fn a_bay_that_does_not_move_hands_the_slip_back(rt: HostRuntime) -> Result<(), Fail> {
    const STEPS: [(Call, Due<'static>); 9] = [
        (Call::Open(3, 1, 0b1111), Due::Done),
        (Call::Ask(3, 0b0011), Due::Named(&[3])),
        // empty there
        (Call::ConfirmThere, Due::Refused(13)),
        (Call::WithdrawThere, Due::Refused(13)),
        // at rest there
        (Call::OpenThere(3, 1, 0b1111), Due::Done),
        (Call::ConfirmThere, Due::Refused(13)),
        (Call::WithdrawThere, Due::Refused(13)),
        (Call::Withdraw, Due::Done),
        (Call::AllIn, Due::Says(true)),
    ];
    // both books have the number 1
    play_each(&rt, 1, 0b1111, &STEPS)
}
