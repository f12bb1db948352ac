ghost use Rattle.std.specs.Prelude.{◌≡◌, ◌<◌, ◌≤◌, [], ◌∷◌, ◌++◌, length};

use std::marker::Model;

// An order of bays: the first `count` of `bays`, and zeros behind them.
// Fixed memory, and `Copy` for its callers, which the kit's ArrayVec is not: that was tried here.
#[derive(Clone, Copy, Debug, Eq, PartialEq)]
pub struct Order {
    pub(crate) bays: [u8; 64],
    pub(crate) count: usize,
}

// Contracts see the list of the bays.
impl Model for Order {
    ghost use Rattle.std.specs.Prelude.{ℕ, List, take};

    ghost Value = { List ℕ };

    ghost use Rattle.search.specs.Padded.{IsPadded, padded};
    ghost use Rattle.search.specs.Unpadded.{padded_back};

    ghost view = { λ r. take r.count r.bays };

    ghost invariant = { IsPadded };

    ghost inverse = { padded };

    ghost inverse_ok = { padded_back };
}

impl Order {
    // No bay.
    pub(crate) fn new() -> Order
        ensures { result ≡ [] }
    {
        Order {
            bays: [0; 64],
            count: 0,
        }
    }

    // How many bays it names.
    pub fn len(&self) -> usize
        ensures count { result ≡ length self.now }
        ensures fits { length self.now ≤ 64 }
    {
        let Order { count, .. } = self;
        *count
    }

    // Adds a bay at the end.
    pub(crate) fn push(&mut self, bay: u8)
        requires { length self.old < 64 }
        ensures { self.new ≡ self.old ++ bay ∷ [] }
    {
        self.bays[self.count] = bay;
        self.count += 1;
    }
}
