use crate::answers::{Accepted, Answer, Order};
use crate::contactor::Contactor;
use crate::portions::ask_and_spend;
use crate::{Site, amps};
use amount::Phases;
use book::Book;
use rows::Refusal;
use std::io;

// The desk of a site: its book, and where each call is told on a line with its answer.
// Over this site's own pile: with the pile as a parameter, which was tried, no proof knows that the book has a size.
#[derive(Drop)]
pub(crate) struct Desk<'a, R> {
    rt: &'a R,
    book: Book<Phases, Site>,
}

// What open, give and end answer.
fn done(answer: Result<(), Refusal>) -> Answer<'static> {
    Answer(answer.map(|()| Accepted::Done))
}

// The order on the front of the sheet, of so many bays.
fn order<'a>(sheet: &'a [u8], count: Result<usize, Refusal>) -> Result<Order<'a>, Refusal> {
    count.map(|count| Order(sheet.get(..count).unwrap_or(sheet)))
}

impl<'a, R: Print> Desk<'a, R> {
    pub(crate) fn new(rt: &'a R, book: Book<Phases, Site>) -> Desk<'a, R> {
        Desk { rt, book }
    }

    pub(crate) fn open(&mut self, bay: u8, mark: u8, claim: u16) -> io::Result<()> {
        let answer = done(self.book.open(bay, mark, amps(claim)));
        println!(self.rt; "open {bay} mark {mark} claim {claim}: {answer}")
    }

    pub(crate) fn give(&mut self, bay: u8, amount: u16) -> io::Result<()> {
        let answer = done(self.book.give(bay, amps(amount)));
        println!(self.rt; "give {bay} back {amount}: {answer}")
    }

    pub(crate) fn end(&mut self, bay: u8) -> io::Result<()> {
        let answer = done(self.book.end(bay));
        println!(self.rt; "end {bay}: {answer}")
    }

    // An ask, and what became of its slip where it is granted.
    pub(crate) fn ask(&mut self, bay: u8, amount: u16, contactor: Contactor) -> io::Result<()> {
        let mut sheet = [0; 64];
        let count = ask_and_spend(&mut self.book, bay, amps(amount), &mut sheet, contactor);
        let answer = Answer(order(&sheet, count).map(Accepted::Granted));
        println!(self.rt; "ask {bay} for {amount}: {answer}")?;
        if count.is_ok() {
            println!(self.rt; "{contactor} {bay}: {}", Accepted::Done)?;
        }
        Ok(())
    }

    pub(crate) fn tell_order(&mut self) -> io::Result<()> {
        let mut sheet = [0; 64];
        let count = self.book.order(&mut sheet);
        let answer = Answer(order(&sheet, count).map(Accepted::Ordered));
        println!(self.rt; "order: {answer}")
    }

    pub(crate) fn tell_all_in(&self) -> io::Result<()> {
        let answer = Answer(self.book.all_in().map(|yes| Accepted::AllIn(yes)));
        println!(self.rt; "all in: {answer}")
    }
}
