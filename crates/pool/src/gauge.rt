ghost use Rattle.std.specs.Prelude.{◌≡◌, ◌↔◌, IsTrue, not};
ghost use Rattle.pool.specs.Limits.{part, within, room};

use amount::Amount;

// What would be out with the amount more, where that is defined and part of the ceiling.
pub fn room<A: Amount>(ceiling: A, out: A, amount: A) -> Option<A>
    ensures { result ≡ room A.Amount.ops ceiling out amount }
{
    out.plus(amount).filter(|sum| ceiling.minus(*sum).is_some())
}

// A ceiling, and what is out under it.
#[derive(Debug, Clone, Copy, PartialEq, Eq)]
pub(crate) struct Gauge<A> {
    pub(crate) ceiling: A,
    pub(crate) out: A,
}

impl<A: Amount> Gauge<A> {
    pub(crate) fn new(ceiling: A) -> Gauge<A>
        ensures ceiling { result.ceiling ≡ ceiling }
        ensures out { result.out ≡ A.Amount.ops.zero }
    {
        Gauge {
            ceiling,
            out: A::zero(),
        }
    }

    // Whether the amount is no part of the ceiling.
    pub(crate) fn is_tall(&self, amount: A) -> bool
        ensures { result ≡ not (part A.Amount.ops amount self.now.ceiling) }
    {
        self.ceiling.minus(amount).is_none()
    }

    // Whether there is no room for the amount beside what is out.
    pub(crate) fn is_short(&self, amount: A) -> bool
        ensures { result ≡ not (within A.Amount.ops (A.Amount.ops.plus self.now.out amount) self.now.ceiling) }
    {
        self.grown(amount).is_none()
    }

    // What would be out with the amount more, where there is room.
    pub(crate) fn grown(&self, amount: A) -> Option<A>
        ensures { result ≡ room A.Amount.ops self.now.ceiling self.now.out amount }
    {
        room(self.ceiling, self.out, amount)
    }

    // What would be out with the amount less, where so much is out.
    pub(crate) fn shrunk(&self, amount: A) -> Option<A>
        ensures { result ≡ A.Amount.ops.minus self.now.out amount }
    {
        self.out.minus(amount)
    }

    pub(crate) fn idle(&self) -> bool
        ensures { IsTrue result ↔ (self.now.out ≡ A.Amount.ops.zero) }
    {
        self.out.same(A::zero())
    }
}
