ghost use Rattle.std.specs.Prelude.{◌≡◌, ◌&&◌, true, false, [], ◌∷◌, ◌++◌, length, Some as There};
ghost use Rattle.std.specs.Bool.{then_some};
ghost use Rattle.std.specs.Fn.{FnOnceReturnsAtMut};
ghost use Rattle.std.specs.Option.{option_or};
ghost use Rattle.pool.specs.Limits.{limit, told};
ghost use Rattle.pool.specs.Changes.{ChangedAbove};
ghost use Rattle.pool.specs.Piles.{gauged, layer_limits};
ghost use Rattle.pool.specs.Pushed.{grounded_push};

use crate::gauge::Gauge;
use crate::limit_fault::LimitFault;
use crate::pool::Pool;
use crate::watch::Watch;
use amount::Amount;

// A pile, and one limit above it for a set of mark numbers.
#[derive(Debug, Clone, Copy, PartialEq, Eq)]
pub struct Layer<A, P, W> {
    pub(crate) below: P,
    pub(crate) watch: W,
    pub(crate) gauge: Gauge<A>,
}

impl<A: Amount, P: Pool<A>, W: Watch> Layer<A, P, W> {
    // The pile with this limit above it, nothing out there.
    pub(crate) fn over(below: P, watch: W, ceiling: A) -> Layer<A, P, W>
        ensures { layer_limits P.Pool.limits W.Watch.watched result ≡ P.Pool.limits below ++ (limit (W.Watch.watched watch) ceiling A.Amount.ops.zero ∷ []) }
    {
        Layer {
            below,
            watch,
            gauge: Gauge::new(ceiling),
        }
    }

    // The place of the pile below, or this one's where it watches the mark and fails.
    fn lowest(&self, lower: Option<u8>, mark: u8, fails: bool) -> Option<u8>
        ensures { result ≡ option_or lower (then_some (W.Watch.watched self.now.watch mark && fails) (told (length (P.Pool.limits self.now.below)))) }
    {
        let here = self.watch.watches(mark) & fails;
        lower.or(here.then_some(self.below.count()))
    }

    // What is out here after a change that would make it `changed`: what is out now, where the mark is not watched, and then
    // nothing is reckoned.
    fn after<F: FnOnce() -> Option<A>>(&self, mark: u8, changed: F) -> Option<A>
        requires { F.IsAlwaysCallable changed }
        ensures watched { W.Watch.watched self.now.watch mark ≡ true → F.post changed result }
        ensures unwatched { W.Watch.watched self.now.watch mark ≡ false → result ≡ There self.now.gauge.out }
    {
        if self.watch.watches(mark) {
            changed()
        } else {
            Some(self.gauge.out)
        }
    }

    // A change of the pile below, and of what is out here, which is to be `out`. This limit is asked first, so that the pile
    // changes only where nothing refuses; where this one refuses, a trial tells whether a lower place does.
    fn change<F: FnOnce(&mut P) -> Result<(), LimitFault>>(
        &mut self,
        out: Option<A>,
        change: F,
    ) -> Result<(), LimitFault>
        requires { F.IsAlwaysCallable change }
        ensures { (told : _) × (changed : P) × FnOnceReturnsAtMut F.FnOnce change self.old.below told changed × ChangedAbove out told (P.Pool.limits self.old.below) (P.Pool.limits changed) (gauged (W.Watch.watched self.old.watch) self.old.gauge) (layer_limits P.Pool.limits W.Watch.watched self.new) result }
    {
        match out {
            Some(out) => {
                change(&mut self.below)?;
                self.gauge.out = out;
                Ok(())
            }
            None => {
                let mut trial = self.below;
                change(&mut trial).and(Err(LimitFault {
                    place: self.below.count(),
                }))
            }
        }
    }
}

impl<A: Amount, P: Pool<A>, W: Watch> Pool<A> for Layer<A, P, W> {
    ghost limits = { layer_limits P.Pool.limits W.Watch.watched };

    ghost grounded = { λ p. grounded_push (P.Pool.limits p.below) _ (P.Pool.grounded p.below) };

    fn tall(&self, mark: u8, amount: A) -> Option<u8> {
        let lower = self.below.tall(mark, amount);
        self.lowest(lower, mark, self.gauge.is_tall(amount))
    }

    fn short(&self, mark: u8, amount: A) -> Option<u8> {
        let lower = self.below.short(mark, amount);
        self.lowest(lower, mark, self.gauge.is_short(amount))
    }

    fn take(&mut self, mark: u8, amount: A) -> Result<(), LimitFault> {
        let more = self.after(mark, || self.gauge.grown(amount));
        self.change(more, |below| below.take(mark, amount))
    }

    fn give(&mut self, mark: u8, amount: A) -> Result<(), LimitFault> {
        let rest = self.after(mark, || self.gauge.shrunk(amount));
        self.change(rest, |below| below.give(mark, amount))
    }

    fn whole(&self) -> A {
        self.below.whole()
    }

    fn count(&self) -> u8 {
        self.below.count().saturating_add(1)
    }

    fn idle(&self) -> bool {
        self.gauge.idle() & self.below.idle()
    }
}
