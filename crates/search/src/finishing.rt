ghost use Rattle.std.specs.Prelude.{◌≡◌, ◌<◌, IfSome};
ghost use Rattle.pool.specs.Limits.{lowest_place};
ghost use Rattle.law.specs.SafeOrder.{may_finish, finished};

use crate::trial::Trial;
use amount::Amount;
use orders::Session;
use pool::Pool;

// Whether the bay has a session whose need is not short under the pile. An empty bay asks nothing of it.
pub(crate) fn may_finish<A: Amount, P: Pool<A>>(bay: &Option<Session<A>>, pile: &P) -> bool
    ensures { result ≡ may_finish A.Amount.ops (P.Pool.limits pile.now) bay.now }
{
    bay.is_some_and(|session| {
        session
            .claim
            .minus(session.holding)
            .is_some_and(|need| { pile.short(session.mark, need).is_none() })
    })
}

// Gives back what the bay's session holds.
pub(crate) fn finish<A: Amount, P: Pool<A>>(bay: Option<Session<A>>, pile: &mut P)
    ensures { P.Pool.limits pile.new ≡ finished A.Amount.ops (P.Pool.limits pile.old) bay }
{
    if let Some(session) = bay {
        let _ = pile.give(session.mark, session.holding);
    }
}

impl<A: Amount> Trial<A> {
    // The lowest bay that may finish.
    pub(crate) fn next_bay<P: Pool<A>>(&self, pile: &P) -> Option<usize>
        ensures bay { result ≡ lowest_place (may_finish A.Amount.ops (P.Pool.limits pile.now)) self.now }
        ensures inside { IfSome result (λ i. i < 64) }
    {
        self.bays.iter().position(|bay| may_finish(bay, pile))
    }
}
