ghost use Rattle.std.specs.Prelude.{◌≡◌};
ghost use Rattle.law.specs.Book.{asks, sheet_after};
ghost use Rattle.book.specs.Books.{state_of};
ghost use Rattle.book.specs.Replies.{of_grant};
ghost use Rattle.book.specs.Served.{Served};

use crate::book::Book;
use crate::ordering::lay_order;
use crate::slip::{Grant, Slip};
use crate::table::seat_all;
use amount::Amount;
use archive::Archived;
use orders::Session;
use pool::{Pool, room};
use rows::{Refusal, RowCall};

impl<A: Archived, P: Pool<A>> Book<A, P> {
    // Asks for a portion. Granted where every open session can still finish with it out: the bay moves, and the order is on the
    // front of the sheet.
    pub fn ask(&mut self, bay: u8, amount: A, sheet: &mut [u8]) -> Result<Grant, Refusal>
        ensures served { Served A.Archived P.Pool.limits self.old (asks bay amount sheet.old) (of_grant result) self.new }
        ensures sheet { sheet.new ≡ sheet_after A.Amount.ops (state_of A.Archived P.Pool.limits self.old) (asks bay amount sheet.old) }
    {
        let (next, session) = self.table.sitting::<A>(bay, RowCall::Ask)?;
        let holding = room(session.claim, session.holding, amount).ok_or(Refusal::AboveClaim)?;
        let mut pile = self.pile;
        pile.take(session.mark, amount)?;
        seat_all(&self.table.rows, &mut self.trial);
        self.trial.seat(bay, Some(Session { holding, ..session }));
        let count = lay_order(&mut self.trial, &pile, sheet)?;
        self.pile = pile;
        let row = &mut self.table.rows[usize::from(bay)];
        row.state = next;
        row.holding.write(holding);
        row.portion.write(amount);
        Ok(Grant {
            count,
            slip: Slip {
                book: self.table.number,
                bay,
            },
        })
    }
}
