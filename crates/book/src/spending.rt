ghost use Rattle.std.specs.Prelude.{IfErr};
ghost use Rattle.law.specs.Book.{confirms, withdraws};
ghost use Rattle.book.specs.Books.{state_of};
ghost use Rattle.book.specs.Faults.{torn_withdraw, TornAt};
ghost use Rattle.book.specs.Replies.{slip_of, of_done, of_spent, HandedBack};
ghost use Rattle.book.specs.Served.{Served};

use crate::book::Book;
use crate::slip::{Slip, Unspent};
use amount::Amount;
use archive::Archived;
use pool::Pool;
use rows::{Refusal, RowCall};

impl<A: Archived, P: Pool<A>> Book<A, P> {
    // The portion stays, and the bay is at rest.
    pub fn confirm(&mut self, slip: Slip) -> Result<(), Unspent>
        ensures served { Served A.Archived P.Pool.limits self.old (confirms (slip_of slip)) (of_spent result) self.new }
        ensures slip { HandedBack slip result }
    {
        let call = self.keep_portion(&slip);
        slip.spent(call)
    }

    // The portion goes back, and the bay is at rest.
    pub fn withdraw(&mut self, slip: Slip) -> Result<(), Unspent>
        ensures served { Served A.Archived P.Pool.limits self.old (withdraws (slip_of slip)) (of_spent result) self.new }
        ensures slip { HandedBack slip result }
        ensures fault { IfErr result (λ u. TornAt (torn_withdraw A.Amount.ops (state_of A.Archived P.Pool.limits self.old) slip.bay) u.refusal) }
    {
        let call = self.return_portion(&slip);
        slip.spent(call)
    }

    // What a confirm does where its slip is this book's and its bay moves; else refusals 1 and 13.
    fn keep_portion(&mut self, slip: &Slip) -> Result<(), Refusal>
        ensures { Served A.Archived P.Pool.limits self.old (confirms (slip_of slip.now)) (of_done result) self.new }
    {
        let next = self.table.spending::<A>(slip, RowCall::Confirm)?;
        self.table.rows[usize::from(slip.bay)].state = next;
        Ok(())
    }

    // What a withdrawal does there, where the pile takes the portion back; else refusals 1, 13 and 14.
    fn return_portion(&mut self, slip: &Slip) -> Result<(), Refusal>
        ensures served { Served A.Archived P.Pool.limits self.old (withdraws (slip_of slip.now)) (of_done result) self.new }
        ensures fault { IfErr result (TornAt (torn_withdraw A.Amount.ops (state_of A.Archived P.Pool.limits self.old) slip.now.bay)) }
    {
        let next = self.table.spending::<A>(slip, RowCall::Withdraw)?;
        let before = self.table.rows[usize::from(slip.bay)];
        let portion: A = before.portion.read();
        let holding: A = before.holding.read();
        self.pile.give(before.mark, portion).map_err(Refusal::Torn)?;
        let row = &mut self.table.rows[usize::from(slip.bay)];
        row.state = next;
        row.holding.write(holding.minus(portion).unwrap_or(holding));
        Ok(())
    }
}
