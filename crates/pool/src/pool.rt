ghost use Rattle.std.specs.Prelude.{◌≡◌, ◌↔◌, List, length, IsTrue};
ghost use Rattle.pool.specs.Limits.{Limit, Grounded, told, told_place, tall_place, short_place, taking, giving, whole_of, Idle};
ghost use Rattle.pool.specs.Changes.{Changed};

use crate::limit_fault::LimitFault;
use amount::Amount;

// What stands behind a book: a list of limits, counted from place 0 at the bottom.
// A copy is a trial: it has the same list, and what is done to it is not done to the pool.
pub trait Pool<A: Amount>: Copy {
    // the limits, as mathematics
    ghost limits: { Self → List (Limit A) };

    // The lowest place that watches the mark and of whose ceiling the amount is no part.
    fn tall(&self, mark: u8, amount: A) -> Option<u8>
        ensures { result ≡ told_place (tall_place A.Amount.ops (limits self.now) mark amount) };

    // The lowest place that watches the mark and has no room for the amount.
    fn short(&self, mark: u8, amount: A) -> Option<u8>
        ensures { result ≡ told_place (short_place A.Amount.ops (limits self.now) mark amount) };

    // Puts the amount out at each limit that watches the mark; refused whole where one has no room.
    fn take(&mut self, mark: u8, amount: A) -> Result<(), LimitFault>
        ensures { Changed (taking A.Amount.ops (limits self.old) mark amount) (limits self.old) (limits self.new) result };

    // Takes the amount off what is out at each limit that watches the mark; refused whole where one has less out.
    fn give(&mut self, mark: u8, amount: A) -> Result<(), LimitFault>
        ensures { Changed (giving A.Amount.ops (limits self.old) mark amount) (limits self.old) (limits self.new) result };

    // The ceiling at place 0.
    fn whole(&self) -> A
        ensures { result ≡ whole_of A.Amount.ops (limits self.now) };

    // How many limits there are, 255 for any more.
    fn count(&self) -> u8
        ensures { result ≡ told (length (limits self.now)) };

    // Whether nothing is out at any limit.
    fn idle(&self) -> bool
        ensures { IsTrue result ↔ Idle A.Amount.ops (limits self.now) };

    // place 0 is there, and watches every number
    ghost grounded: { (p : Self) → Grounded (limits p) };
}
