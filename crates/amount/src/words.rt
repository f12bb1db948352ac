ghost use Rattle.std.specs.Prelude.{Some, codes, decimal};
ghost use Rattle.std.specs.Fmt.{◌++?◌};
ghost use Rattle.amount.specs.Words.{phases_text, modules_text};

use crate::amps::Amps;
use crate::members::Members;
use crate::modules::Modules;
use crate::pair::Pair;
use crate::phases::Phases;
use std::fmt;

impl fmt::Display for Amps {
    ghost output = { λ a. Some (decimal a.value) };

    fn fmt<W: fmt::Write>(&self, f: &mut fmt::Formatter<W>) -> fmt::Result {
        fmt::Display::fmt(&self.value, f)
    }
}

impl fmt::Display for Phases {
    ghost output = { λ a. Some (phases_text a) };

    fn fmt<W: fmt::Write>(&self, f: &mut fmt::Formatter<W>) -> fmt::Result {
        let Phases { l1, l2, l3 } = self;
        write!(f, "{l1} {l2} {l3}")
    }
}

impl fmt::Display for Modules {
    ghost output = { λ a. Some (modules_text a) };

    fn fmt<W: fmt::Write>(&self, f: &mut fmt::Formatter<W>) -> fmt::Result {
        let names = Members {
            bits: self.names,
            count: 64,
        };
        write!(f, "{names}")
    }
}

impl<L: fmt::Display, R: fmt::Display> fmt::Display for Pair<L, R> {
    ghost output = { λ p. L.output p.left ++? Some (codes " ") ++? R.output p.right };

    fn fmt<W: fmt::Write>(&self, f: &mut fmt::Formatter<W>) -> fmt::Result {
        let Pair { left, right } = self;
        write!(f, "{left} {right}")
    }
}
