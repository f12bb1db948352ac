// What the programs share: a day file from standard input, its text to standard output.
#![tactic(auto)]

mod input;
mod programs;

pub use input::read_day;
pub use programs::list_input;
