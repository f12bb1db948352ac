ghost use Rattle.amount.specs.Counts.{amps_ops};
ghost use Rattle.amount.specs.CountLaws.{amps_laws};

use crate::amount::Amount;
use crate::amps::Amps;

impl Amount for Amps {
    ghost ops = { amps_ops };

    ghost lawful = { amps_laws };

    fn zero() -> Amps {
        Amps { value: 0 }
    }

    fn plus(self, other: Amps) -> Option<Amps> {
        self.value.checked_add(other.value).map(Amps::from)
    }

    fn minus(self, part: Amps) -> Option<Amps> {
        self.value.checked_sub(part.value).map(Amps::from)
    }

    fn same(self, other: Amps) -> bool {
        self == other
    }
}
