ghost use Rattle.amount.specs.Pairs.{pair_ops};
ghost use Rattle.amount.specs.PairLaws.{pair_laws};

use crate::amount::Amount;

// One amount of each of two kinds.
#[derive(Clone, Copy, Debug, PartialEq, Eq)]
pub struct Pair<L, R> {
    pub left: L,
    pub right: R,
}

impl<L: Amount, R: Amount> Amount for Pair<L, R> {
    ghost ops = { pair_ops L.Amount.ops R.Amount.ops };

    ghost lawful = { pair_laws L.Amount.lawful R.Amount.lawful };

    fn zero() -> Pair<L, R> {
        Pair {
            left: L::zero(),
            right: R::zero(),
        }
    }

    // A step as an argument was tried, as for phases: here it takes two, of two types, and is no shorter than these lines.
    fn plus(self, other: Pair<L, R>) -> Option<Pair<L, R>> {
        let left = self.left.plus(other.left)?;
        let right = self.right.plus(other.right)?;
        Some(Pair { left, right })
    }

    fn minus(self, part: Pair<L, R>) -> Option<Pair<L, R>> {
        let left = self.left.minus(part.left)?;
        let right = self.right.minus(part.right)?;
        Some(Pair { left, right })
    }

    // By the kinds' own `same`: an amount owes no derived equality.
    fn same(self, other: Pair<L, R>) -> bool {
        self.left.same(other.left) && self.right.same(other.right)
    }
}
