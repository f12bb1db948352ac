// What a day file holds, in words: a line for each record, and a last line.
#![tactic(auto)]

mod day;
mod records;

pub use day::list_day;
