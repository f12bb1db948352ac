use rows::Refusal;
use std::fmt;

// The bays of an order.
#[derive(Clone, Copy, Debug, PartialEq, Eq)]
pub(crate) struct Order<'a>(pub(crate) &'a [u8]);

// What an accepted call of the book answers.
#[derive(Clone, Copy, Debug, PartialEq, Eq)]
pub(crate) enum Accepted<'a> {
    Done,
    Granted(Order<'a>),
    Ordered(Order<'a>),
    AllIn(bool),
}

// What a call of the book answers, to be told.
#[derive(Clone, Copy, Debug, PartialEq, Eq)]
pub(crate) struct Answer<'a>(pub(crate) Result<Accepted<'a>, Refusal>);

impl fmt::Display for Order<'_> {
    fn fmt<W: fmt::Write>(&self, f: &mut fmt::Formatter<W>) -> fmt::Result {
        for (i, bay) in self.0.iter().enumerate() {
            if i > 0 {
                f.write_str(" ")?;
            }
            write!(f, "{bay}")?;
        }
        Ok(())
    }
}

impl fmt::Display for Accepted<'_> {
    fn fmt<W: fmt::Write>(&self, f: &mut fmt::Formatter<W>) -> fmt::Result {
        match self {
            Accepted::Done => f.write_str("done"),
            Accepted::Granted(order) => write!(f, "granted, order {order}"),
            Accepted::Ordered(order) => write!(f, "{order}"),
            Accepted::AllIn(true) => f.write_str("yes"),
            Accepted::AllIn(false) => f.write_str("no"),
        }
    }
}

impl fmt::Display for Answer<'_> {
    fn fmt<W: fmt::Write>(&self, f: &mut fmt::Formatter<W>) -> fmt::Result {
        match &self.0 {
            Ok(accepted) => write!(f, "{accepted}"),
            Err(refusal) => {
                let number = refusal.number();
                match refusal.place() {
                    Some(place) => write!(f, "refused {number} at place {place}"),
                    None => write!(f, "refused {number}"),
                }
            }
        }
    }
}
