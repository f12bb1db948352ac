use amount::{Modules, Pair, Phases};
use archive::Archived;

// Amounts by a number, so that one table of calls serves every kind. Not the numbers of the piles' tests: here each phase has
// its own.
pub(crate) trait Sample: Archived {
    fn of(n: u64) -> Self;
}

impl Sample for Phases {
    // L3 in the lowest 16 bits, then L2, then L1
    fn of(n: u64) -> Phases {
        let part = |shift: u32| ((n >> shift) & 0xFFFF) as u16;
        Phases::from([part(32), part(16), part(0)])
    }
}

impl Sample for Modules {
    fn of(n: u64) -> Modules {
        Modules::from(n)
    }
}

impl Sample for Pair<Phases, Modules> {
    // the same number on both sides
    fn of(n: u64) -> Pair<Phases, Modules> {
        Pair {
            left: Phases::of(n),
            right: Modules::of(n),
        }
    }
}

impl Sample for Pair<Modules, Phases> {
    // the modules in the highest 16 bits
    fn of(n: u64) -> Pair<Modules, Phases> {
        Pair {
            left: Modules::of(n >> 48),
            right: Phases::of(n),
        }
    }
}

impl Sample for Pair<Modules, Modules> {
    fn of(n: u64) -> Pair<Modules, Modules> {
        Pair {
            left: Modules::of(n),
            right: Modules::of(n),
        }
    }
}

// A kind of 24 bytes.
pub(crate) type Wide = Pair<Modules, Pair<Modules, Modules>>;

impl Sample for Wide {
    fn of(n: u64) -> Wide {
        Pair {
            left: Modules::of(n),
            right: Pair::<Modules, Modules>::of(n),
        }
    }
}
