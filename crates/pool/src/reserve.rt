ghost use Rattle.std.specs.Prelude.{◌≡◌};
ghost use Rattle.pool.specs.Limits.{all_but};

use crate::layer::Layer;
use crate::pool::Pool;
use crate::watch::Watch;
use amount::Amount;

// Every mark number but one.
#[derive(Debug, Clone, Copy, PartialEq, Eq)]
pub struct AllBut {
    kept: u8,
}

impl Watch for AllBut {
    ghost watched = { λ numbers. all_but numbers.kept };

    fn watches(&self, mark: u8) -> bool {
        mark != self.kept
    }
}

// A reserve: an amount kept for one mark number, by one limit above a pile for every other number.
pub type Reserve<A, P> = Layer<A, P, AllBut>;

// The legend's number of a reserve that is too tall.
const TALL: u8 = 15;

// The amount to keep is not part of the whole; the pile is handed back.
#[derive(Debug, Clone, Copy, PartialEq, Eq)]
pub struct TallReserve<P> {
    pub pile: P,
}

impl<P> TallReserve<P> {
    // The number that the legend gives it.
    pub fn number(&self) -> u8
        ensures { result ≡ 15 }
    {
        TALL
    }
}

impl<A: Amount, P: Pool<A>> Reserve<A, P> {
    ghost use Rattle.pool.specs.Reserves.{Reserved};

    // A reserve of the amount for the number `kept`, nothing out.
    pub fn new(below: P, kept: u8, amount: A) -> Result<Reserve<A, P>, TallReserve<P>>
        ensures { Reserved A.Amount.ops P.Pool.limits below kept amount result }
    {
        let rest = below.whole().minus(amount);
        rest.map(|rest| Layer::over(below, AllBut { kept }, rest))
            .ok_or(TallReserve { pile: below })
    }
}
