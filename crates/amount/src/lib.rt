// Kinds of amount: a zero, a partial sum, a difference and an equality, under laws that every kind shows.
#![tactic(auto)]

mod amount;
mod amps;
mod amps_amount;
mod members;
mod modules;
mod modules_amount;
mod pair;
mod phases;
mod words;

pub use amount::Amount;
pub use amps::Amps;
pub use members::Members;
pub use modules::Modules;
pub use pair::Pair;
pub use phases::Phases;
