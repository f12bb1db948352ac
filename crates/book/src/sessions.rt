ghost use Rattle.std.specs.Prelude.{IfErr};
ghost use Rattle.law.specs.Book.{opens, gives, ends};
ghost use Rattle.book.specs.Books.{state_of};
ghost use Rattle.book.specs.Faults.{torn_give, torn_end, TornAt};
ghost use Rattle.book.specs.Replies.{of_done};
ghost use Rattle.book.specs.Served.{Served};

use crate::book::Book;
use amount::Amount;
use archive::Archived;
use pool::{LimitFault, Pool};
use rows::{Refusal, RowCall, turn};

impl<A: Archived, P: Pool<A>> Book<A, P> {
    // A session at an empty bay, for a firm's mark, with the most that it may hold.
    pub fn open(&mut self, bay: u8, mark: u8, claim: A) -> Result<(), Refusal>
        ensures { Served A.Archived P.Pool.limits self.old (opens bay mark claim) (of_done result) self.new }
    {
        self.table.known::<A>(bay)?;
        if mark > 15 {
            return Err(Refusal::NoMark);
        }
        if self.table.slip_out::<A>() {
            return Err(Refusal::Moving);
        }
        let next = turn(self.table.rows[usize::from(bay)].state, RowCall::Open)?;
        if let Some(place) = self.pile.tall(mark, claim) {
            return Err(Refusal::TallClaim(LimitFault { place }));
        }
        let row = &mut self.table.rows[usize::from(bay)];
        row.state = next;
        row.mark = mark;
        row.claim.write(claim);
        row.holding.write(A::zero());
        Ok(())
    }

    // Gives back a part of what the session holds.
    pub fn give(&mut self, bay: u8, amount: A) -> Result<(), Refusal>
        ensures served { Served A.Archived P.Pool.limits self.old (gives bay amount) (of_done result) self.new }
        ensures fault { IfErr result (TornAt (torn_give A.Amount.ops (state_of A.Archived P.Pool.limits self.old) bay amount)) }
    {
        let (next, session) = self.table.sitting::<A>(bay, RowCall::Give)?;
        let rest = session.holding.minus(amount).ok_or(Refusal::MoreThanHeld)?;
        self.pile.give(session.mark, amount).map_err(Refusal::Torn)?;
        let row = &mut self.table.rows[usize::from(bay)];
        row.state = next;
        row.holding.write(rest);
        Ok(())
    }

    // Ends a session: all that it holds goes back, and the bay is empty.
    pub fn end(&mut self, bay: u8) -> Result<(), Refusal>
        ensures served { Served A.Archived P.Pool.limits self.old (ends bay) (of_done result) self.new }
        ensures fault { IfErr result (TornAt (torn_end A.Amount.ops (state_of A.Archived P.Pool.limits self.old) bay)) }
    {
        let (next, session) = self.table.sitting::<A>(bay, RowCall::End)?;
        self.pile
            .give(session.mark, session.holding)
            .map_err(Refusal::Torn)?;
        self.table.rows[usize::from(bay)].state = next;
        Ok(())
    }
}
