use crate::sample::Sample;
use crate::steps::{Call, Due, aside, play};
use amount::{Modules, Phases};
use book::Book;
use pool::{Cap, Reserve, Store};
use std::test::Fail;

#[test]
fn the_textbook_example(rt: HostRuntime) -> Result<(), Fail> {
    const STEPS: [(Call, Due<'static>); 20] = [
        (Call::Open(0, 0, 0x0007_0005_0003), Due::Done),
        (Call::Open(1, 1, 0x0003_0002_0002), Due::Done),
        (Call::Open(2, 2, 0x0009_0000_0002), Due::Done),
        (Call::Open(3, 3, 0x0002_0002_0002), Due::Done),
        (Call::Open(4, 4, 0x0004_0003_0003), Due::Done),
        (Call::Ask(0, 0x0000_0001_0000), Due::Named(&[0, 1, 2, 3, 4])),
        (Call::Confirm, Due::Done),
        (Call::Ask(1, 0x0002_0000_0000), Due::Named(&[0, 1, 2, 3, 4])),
        (Call::Confirm, Due::Done),
        (Call::Ask(2, 0x0003_0000_0002), Due::Named(&[1, 0, 2, 3, 4])),
        (Call::Confirm, Due::Done),
        (Call::Ask(3, 0x0002_0001_0001), Due::Named(&[1, 3, 0, 2, 4])),
        (Call::Confirm, Due::Done),
        (Call::Ask(4, 0x0000_0000_0002), Due::Named(&[1, 3, 0, 2, 4])),
        (Call::Confirm, Due::Done),
        (Call::Order, Due::Named(&[1, 3, 0, 2, 4])),
        (Call::Ask(1, 0x0001_0000_0002), Due::Named(&[1, 3, 0, 2, 4])),
        (Call::Confirm, Due::Done),
        (Call::Ask(0, 0x0000_0002_0000), Due::Refused(10)),
        (Call::Order, Due::Named(&[1, 3, 0, 2, 4])),
    ];
    let pile = Store::new(Phases::of(0x000A_0005_0007));
    play(&rt, "phases", &mut Book::new(1, pile), &mut aside(), &STEPS)
}

#[test]
fn the_modules_example(rt: HostRuntime) -> Result<(), Fail> {
    const STEPS: [(Call, Due<'static>); 8] = [
        (Call::Open(1, 0, 0b0011), Due::Done),
        (Call::Open(2, 0, 0b0011), Due::Done),
        (Call::Ask(1, 0b0001), Due::Named(&[1, 2])),
        (Call::Confirm, Due::Done),
        (Call::Ask(2, 0b0010), Due::Refused(10)),
        (Call::Ask(2, 0b0001), Due::At(9, 0)),
        (Call::Ask(2, 0b0100), Due::Refused(8)),
        (Call::Order, Due::Named(&[1, 2])),
    ];
    let pile = Store::new(Modules::of(0b1111));
    play(
        &rt,
        "modules",
        &mut Book::new(1, pile),
        &mut aside(),
        &STEPS,
    )
}

#[test]
fn the_worked_day(rt: HostRuntime) -> Result<(), Fail> {
    const STEPS: [(Call, Due<'static>); 10] = [
        (Call::Open(3, 1, 0x0014_0014_0014), Due::Done),
        (Call::Open(5, 2, 0x0010_0010_0010), Due::Done),
        (Call::Ask(3, 0x000C_000C_000C), Due::Named(&[3, 5])),
        (Call::Confirm, Due::Done),
        (Call::Ask(5, 0x0008_0008_0008), Due::Refused(10)),
        (Call::Ask(5, 0x000D_000D_000D), Due::At(9, 1)),
        (Call::Ask(3, 0x0008_0008_0008), Due::Named(&[3, 5])),
        (Call::Withdraw, Due::Done),
        (Call::End(3), Due::Done),
        (Call::AllIn, Due::Says(true)),
    ];
    let cap = Cap::new(
        Store::new(Phases::of(0x0020_0020_0020)),
        6,
        Phases::of(0x0018_0018_0018),
    );
    let pile = Reserve::new(cap, 0, Phases::of(0x0004_0004_0004)).map_err(|_| Fail::new(
        "tall reserve",
    ))?;
    play(&rt, "phases", &mut Book::new(1, pile), &mut aside(), &STEPS)
}

#[test]
fn a_store_of_32_on_each_phase(rt: HostRuntime) -> Result<(), Fail> {
    const STEPS: [(Call, Due<'static>); 3] = [
        (Call::Open(0, 0, 0x0021_0000_0000), Due::At(7, 0)),
        (Call::Open(0, 0, 0x0020_0020_0020), Due::Done),
        (Call::Order, Due::Named(&[0])),
    ];
    let pile = Store::new(Phases::of(0x0020_0020_0020));
    play(&rt, "phases", &mut Book::new(1, pile), &mut aside(), &STEPS)
}
