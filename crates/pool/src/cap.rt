ghost use Rattle.std.specs.Prelude.{◌≡◌, [], ◌∷◌, ◌++◌};
ghost use Rattle.pool.specs.Limits.{limit, in_marks};

use crate::layer::Layer;
use crate::pool::Pool;
use crate::watch::Watch;
use amount::Amount;

// A set of marks, each by its bit.
#[derive(Debug, Clone, Copy, PartialEq, Eq)]
pub struct Marks {
    bits: u16,
}

impl Watch for Marks {
    ghost watched = { λ marks. in_marks marks.bits };

    // No bit stands for a number above 15.
    fn watches(&self, mark: u8) -> bool {
        let bits = self.bits;
        mark < 16 && (bits >> mark) & 1 == 1
    }
}

// A cap: one limit above a pile, for a set of marks.
pub type Cap<A, P> = Layer<A, P, Marks>;

impl<A: Amount, P: Pool<A>> Cap<A, P> {
    ghost use Rattle.pool.specs.Piles.{cap_limits};

    // A cap over the pile for the marks whose bits are set, with this ceiling, nothing out.
    pub fn new(below: P, marks: u16, ceiling: A) -> Cap<A, P>
        ensures { cap_limits P.Pool.limits result ≡ P.Pool.limits below ++ (limit (in_marks marks) ceiling A.Amount.ops.zero ∷ []) }
    {
        Layer::over(below, Marks { bits: marks }, ceiling)
    }
}
