// Completion orders and the planner, as mathematics: each function's contract is a theorem, of every lawful kind.
#![tactic(auto)]

ghost use Rattle.orders.specs.Theorems.{WalkComplete, PlannerAgrees};

use amount::Amount;

mod session;

pub use session::Session;

// The walk that takes the lowest bay at each step finds an order where there is one, and it is the only lowest-first one.
pub fn walk_complete<A: Amount>()
    ensures { WalkComplete A.Amount.ops }
{}

// A patient planner succeeds exactly when a completion order exists.
pub fn planner_agrees<A: Amount>()
    ensures { PlannerAgrees A.Amount.ops }
{}
