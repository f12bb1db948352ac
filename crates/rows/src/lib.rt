// The rows of a book: what is kept for one bay, in bytes, and what each call makes of it.
#![tactic(auto)]

mod cell;
mod effect;
mod refusal;
mod row;

pub use cell::Cell;
pub use effect::{RowCall, turn};
pub use refusal::Refusal;
pub use row::{Row, RowState};
