// A site's day by hand: a pile, a book over it, and calls one by one, each told on a line with its answer.
#![tactic(auto)]

mod answers;
mod contactor;
mod desk;
mod portions;

use crate::contactor::Contactor;
use crate::desk::Desk;
use amount::Phases;
use book::Book;
use pool::{Cap, Reserve, Store, TallReserve};
use std::io;

// Bits 1 and 2: the marks of the two firms under the cap.
const FIRMS: u16 = 0x0006;

// The mark number that the reserve is kept for.
const HOUSE: u8 = 0;

type Hall = Cap<Phases, Store<Phases>>;

type Site = Reserve<Phases, Hall>;

// The same amperes on each phase.
fn amps(each: u16) -> Phases {
    Phases::from([each; 3])
}

// The feed of the site, with a cap on two firms and a reserve for the house.
fn site() -> Result<Site, TallReserve<Hall>> {
    let store = Store::new(amps(32));
    let cap = Cap::new(store, FIRMS, amps(24));
    Reserve::new(cap, HOUSE, amps(4))
}

fn day<R: Print>(mut desk: Desk<'_, R>) -> io::Result<()> {
    desk.open(3, 1, 20)?;
    desk.open(5, 2, 16)?;
    desk.ask(3, 12, Contactor::Closes)?;
    desk.ask(5, 8, Contactor::Closes)?;
    desk.ask(5, 13, Contactor::Closes)?;
    desk.ask(3, 8, Contactor::Fails)?;
    desk.give(3, 4)?;
    desk.tell_order()?;
    desk.tell_all_in()?;
    desk.end(3)?;
    desk.tell_order()?;
    desk.tell_all_in()
}

fn main(rt: HostRuntime) -> io::Result<()> {
    match site() {
        Ok(pile) => day(Desk::new(&rt, Book::new(1, pile))),
        Err(tall) => println!(rt; "site: refused {}", tall.number()),
    }
}
