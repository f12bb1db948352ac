// The book: 64 rows over a pile, and the calls on them.
#![tactic(auto)]

mod admission;
mod asking;
mod book;
mod ordering;
mod questions;
mod sessions;
mod slip;
mod spending;
mod table;

pub use book::Book;
pub use slip::{Grant, Slip, Unspent};
