ghost use Rattle.std.specs.Prelude.{◌≡◌, ◌≤◌, length, IfSome};
ghost use Rattle.law.specs.SafeOrder.{safe_order};
ghost use Rattle.search.specs.Completing.{completing};
ghost use Rattle.search.specs.Emptied.{without};

use crate::finishing::finish;
use crate::order::Order;
use crate::trial::Trial;
use amount::Amount;
use pool::Pool;

impl<A: Amount> Trial<A> {
    // Names at each step the lowest bay left that may finish, gives its holding back on a trial copy of the pile, and empties it.
    fn safe_order<P: Pool<A>>(&mut self, pile: &P) -> Order
        ensures named { result ≡ safe_order A.Amount.ops (P.Pool.limits pile.now) self.old }
        ensures left { self.new ≡ without result self.old }
        ensures bays { length self.new ≡ 64 }
    {
        let mut trial = *pile;
        let mut order = Order::new();
        while let Some(bay) = self.next_bay(&trial) {
            finish(self.bays[bay], &mut trial);
            self.bays[bay] = None;
            order.push(bay as u8);
        }
        order
    }

    // The order that takes at each step the lowest bay not yet named whose need is not short, on a trial copy of the pile.
    // Absent where it does not name every open bay. What it names is empty afterwards.
    pub fn completion_order<P: Pool<A>>(&mut self, pile: &P) -> Option<Order>
        ensures order { result ≡ completing A.Amount.ops (P.Pool.limits pile.now) self.old }
        ensures fits { IfSome result (λ order. length order ≤ 64) }
        ensures left { self.new ≡ without (safe_order A.Amount.ops (P.Pool.limits pile.now) self.old) self.old }
        ensures bays { length self.new ≡ 64 }
    {
        let open = self.open_bays();
        let order = self.safe_order(pile);
        (order.len() == open).then_some(order)
    }
}
