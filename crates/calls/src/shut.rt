use crate::sample::{Sample, Wide};
use crate::steps::{Call, Due, aside, play};
use amount::{Modules, Pair, Phases};
use book::Book;
use pool::{Pool, Store};
use std::test::Fail;

// Every call that needs no slip.
const ALL_REFUSED: [(Call, Due<'static>); 15] = [
    (Call::Open(3, 1, 0), Due::Refused(1)),
    (Call::Open(64, 1, 0), Due::Refused(1)),
    (Call::Open(3, 16, 0b10000), Due::Refused(1)),
    (Call::Ask(3, 0), Due::Refused(1)),
    (Call::Ask(64, 0), Due::Refused(1)),
    (Call::ShortAsk(3, 0), Due::Refused(1)),
    (Call::Give(3, 0), Due::Refused(1)),
    (Call::Give(64, 0), Due::Refused(1)),
    (Call::End(3), Due::Refused(1)),
    (Call::End(64), Due::Refused(1)),
    (Call::Order, Due::Refused(1)),
    (Call::ShortOrder, Due::Refused(1)),
    (Call::AllIn, Due::Refused(1)),
    (Call::Open(3, 1, 1), Due::Refused(1)),
    (Call::OpenThere(3, 1, 1), Due::Done),
];

// A slip of another book at a shut one.
const SLIPS: [(Call, Due<'static>); 9] = [
    (Call::Open(3, 1, 0b1111), Due::Done),
    (Call::Ask(3, 0b0001), Due::Named(&[3])),
    (Call::ConfirmThere, Due::Refused(1)),
    (Call::WithdrawThere, Due::Refused(1)),
    (Call::OpenThere(3, 1, 0), Due::Refused(1)),
    (Call::Ask(3, 0b0010), Due::Refused(4)),
    (Call::Confirm, Due::Done),
    (Call::Give(3, 0b0001), Due::Done),
    (Call::AllIn, Due::Says(true)),
];

// Calls at a book that is not shut.
const NOT_SHUT: [(Call, Due<'static>); 4] = [
    (Call::Open(3, 1, 0b1111), Due::Done),
    (Call::Ask(3, 0b1111), Due::Named(&[3])),
    (Call::Withdraw, Due::Done),
    (Call::AllIn, Due::Says(true)),
];

fn fifteen() -> Store<Phases> {
    Store::new(Phases::of(0b1111))
}

// The two tests of a shut book play the same three lists: a function for both would need the bound by which a test may stop.
#[test]
fn a_pile_that_is_not_idle_shuts_the_book(rt: HostRuntime) -> Result<(), Fail> {
    let mut pile = fifteen();
    pile.take(0, Phases::of(1))?;
    let mut shut = Book::new(1, pile);
    play(
        &rt,
        "phases",
        &mut shut,
        &mut Book::new(2, fifteen()),
        &ALL_REFUSED,
    )?;
    // 1 is tested before 13, and before the state of the bay
    play(
        &rt,
        "phases, elsewhere",
        &mut Book::new(2, fifteen()),
        &mut shut,
        &SLIPS,
    )?;
    play(
        &rt,
        "phases, of that number",
        &mut Book::new(1, fifteen()),
        &mut shut,
        &SLIPS,
    )
}

#[test]
fn a_pile_that_is_idle_again_does_not(rt: HostRuntime) -> Result<(), Fail> {
    let mut pile = fifteen();
    pile.take(0, Phases::of(0))?;
    play(
        &rt,
        "phases",
        &mut Book::new(1, pile),
        &mut aside(),
        &NOT_SHUT,
    )?;
    pile.take(0, Phases::of(1))?;
    pile.give(5, Phases::of(1))?;
    play(
        &rt,
        "phases, given back",
        &mut Book::new(1, pile),
        &mut aside(),
        &NOT_SHUT,
    )
}

#[test]
fn a_kind_wider_than_16_bytes_shuts_the_book(rt: HostRuntime) -> Result<(), Fail> {
    let mut shut = Book::new(1, Store::new(Wide::of(0b1111)));
    play(
        &rt,
        "wide",
        &mut shut,
        &mut Book::new(2, fifteen()),
        &ALL_REFUSED,
    )?;
    play(
        &rt,
        "wide, elsewhere",
        &mut Book::new(2, fifteen()),
        &mut shut,
        &SLIPS,
    )?;
    play(
        &rt,
        "wide, of that number",
        &mut Book::new(1, fifteen()),
        &mut shut,
        &SLIPS,
    )
}

#[test]
fn a_kind_of_16_bytes_does_not(rt: HostRuntime) -> Result<(), Fail> {
    let pile = Store::new(Pair::<Modules, Modules>::of(0b1111));
    play(
        &rt,
        "modules twice",
        &mut Book::new(1, pile),
        &mut aside(),
        &NOT_SHUT,
    )
}
