// Archived amounts: each kind names its width, and its amounts are read from and written into exactly that many bytes.
#![tactic(auto)]

mod amps;
mod archived;
mod fill;
mod modules;
mod pair;
mod phases;
mod width;

pub use archived::{Archived, WrongLength};
