// The safety search: whether the sessions at the bays can all finish in some order, and which is the lowest-first one.
#![tactic(auto)]

mod completion;
mod finishing;
mod order;
mod seating;
mod sheet;
mod trial;

pub use order::Order;
pub use sheet::ShortSheet;
pub use trial::Trial;
