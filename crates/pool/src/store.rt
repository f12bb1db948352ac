ghost use Rattle.std.specs.Prelude.{◌≡◌, [], ◌∷◌, refl};
ghost use Rattle.pool.specs.Limits.{limit, every_number};
ghost use Rattle.pool.specs.Piles.{store_limits};

use crate::gauge::Gauge;
use crate::limit_fault::LimitFault;
use crate::pool::Pool;
use amount::Amount;

// The bottom of a pile: one limit that watches every number.
#[derive(Debug, Clone, Copy, PartialEq, Eq)]
pub struct Store<A> {
    gauge: Gauge<A>,
}

impl<A: Amount> Store<A> {
    // A store with this ceiling, nothing out.
    pub fn new(ceiling: A) -> Store<A>
        ensures { store_limits result ≡ limit every_number ceiling A.Amount.ops.zero ∷ [] }
    {
        Store {
            gauge: Gauge::new(ceiling),
        }
    }
}

impl<A: Amount> Pool<A> for Store<A> {
    ghost limits = { store_limits };

    ghost grounded = { λ _ _. refl };

    fn tall(&self, _mark: u8, amount: A) -> Option<u8> {
        self.gauge.is_tall(amount).then_some(0)
    }

    fn short(&self, _mark: u8, amount: A) -> Option<u8> {
        self.gauge.is_short(amount).then_some(0)
    }

    // One line each: a function for take and give both would be longer, and say less plainly what is out.
    fn take(&mut self, _mark: u8, amount: A) -> Result<(), LimitFault> {
        self.gauge.out = self.gauge.grown(amount).ok_or(LimitFault { place: 0 })?;
        Ok(())
    }

    fn give(&mut self, _mark: u8, amount: A) -> Result<(), LimitFault> {
        self.gauge.out = self.gauge.shrunk(amount).ok_or(LimitFault { place: 0 })?;
        Ok(())
    }

    fn whole(&self) -> A {
        self.gauge.ceiling
    }

    fn count(&self) -> u8 {
        1
    }

    fn idle(&self) -> bool {
        self.gauge.idle()
    }
}
