ghost use Rattle.std.specs.Prelude.{◌≡◌, [], ◌∷◌};
ghost use Rattle.amount.specs.Phases.{phases_ops};
ghost use Rattle.amount.specs.PhaseLaws.{phases_laws};

use crate::amount::Amount;
use crate::amps::Amps;

// Whole amperes on the phases L1, L2 and L3.
#[derive(Clone, Copy, Debug, PartialEq, Eq)]
pub struct Phases {
    pub l1: Amps,
    pub l2: Amps,
    pub l3: Amps,
}

impl From<[u16; 3]> for Phases {
    ghost from_gives = { λ each a. each ≡ a.l1.value ∷ a.l2.value ∷ a.l3.value ∷ [] };

    fn from([l1, l2, l3]: [u16; 3]) -> Phases {
        Phases {
            l1: Amps::from(l1),
            l2: Amps::from(l2),
            l3: Amps::from(l3),
        }
    }
}

impl Amount for Phases {
    ghost ops = { phases_ops };

    ghost lawful = { phases_laws };

    fn zero() -> Phases {
        Phases {
            l1: Amps::zero(),
            l2: Amps::zero(),
            l3: Amps::zero(),
        }
    }

    // One function for both, given the step on a phase, was tried: an ask of the book then took a sixth more instructions.
    fn plus(self, other: Phases) -> Option<Phases> {
        let l1 = self.l1.plus(other.l1)?;
        let l2 = self.l2.plus(other.l2)?;
        let l3 = self.l3.plus(other.l3)?;
        Some(Phases { l1, l2, l3 })
    }

    fn minus(self, part: Phases) -> Option<Phases> {
        let l1 = self.l1.minus(part.l1)?;
        let l2 = self.l2.minus(part.l2)?;
        let l3 = self.l3.minus(part.l3)?;
        Some(Phases { l1, l2, l3 })
    }

    fn same(self, other: Phases) -> bool {
        self == other
    }
}
