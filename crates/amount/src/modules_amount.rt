ghost use Rattle.amount.specs.Sets.{modules_ops};
ghost use Rattle.amount.specs.SetLaws.{modules_laws};

use crate::amount::Amount;
use crate::modules::Modules;

impl Amount for Modules {
    ghost ops = { modules_ops };

    ghost lawful = { modules_laws };

    fn zero() -> Modules {
        Modules { names: 0 }
    }

    fn plus(self, other: Modules) -> Option<Modules> {
        (self.names & other.names == 0).then(|| Modules::from(self.names | other.names))
    }

    fn minus(self, part: Modules) -> Option<Modules> {
        (part.names & self.names == part.names).then(|| Modules::from(self.names - part.names))
    }

    fn same(self, other: Modules) -> bool {
        self == other
    }
}
