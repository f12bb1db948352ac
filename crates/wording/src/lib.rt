// Amounts in words, for every archived kind that is told so.
#![tactic(auto)]

mod listed;
mod no_memory;

pub use listed::Listed;
pub use no_memory::NoMemory;
