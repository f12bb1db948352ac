// The law over whole days: what the book, as a machine, and a patient planner share.
#![tactic(auto)]

ghost use Rattle.law.specs.Law.{LawOfDays};

use amount::Amount;

// Nothing to run: the contract is the law, of every lawful kind and every list of limits.
pub fn law_of_days<A: Amount>()
    ensures { LawOfDays A.Amount.ops }
{}
