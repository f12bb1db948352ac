ghost use Rattle.std.specs.Prelude.{◌≡◌, map, is_some};
ghost use Rattle.pool.specs.Limits.{lowest_place};
ghost use Rattle.rows.specs.Rows.{row_of};
ghost use Rattle.law.specs.Book.{seen, orders, all_in, answer, holds_any, sheet_after};
ghost use Rattle.book.specs.Books.{state_of};
ghost use Rattle.book.specs.Replies.{of_order, of_question};
ghost use Rattle.book.specs.Served.{Served};

use crate::book::Book;
use crate::ordering::lay_order;
use crate::table::seat_all;
use amount::Amount;
use archive::Archived;
use orders::Session;
use pool::Pool;
use rows::{Refusal, Row};

// Whether an open session holds anything.
fn some_holding<A: Archived>(rows: &[Row; 64]) -> bool
    ensures { result ≡ is_some (lowest_place (holds_any A.Amount.ops) (seen (map (row_of A.Archived) rows.now))) }
{
    rows.iter().any(|row| holds_any::<A>(row.session()))
}

fn holds_any<A: Amount>(bay: Option<Session<A>>) -> bool
    ensures { result ≡ holds_any A.Amount.ops bay }
{
    bay.is_some_and(|session| !session.holding.same(A::zero()))
}

impl<A: Archived, P: Pool<A>> Book<A, P> {
    // The order in which every open session can finish, on the front of the sheet; answers how many bays it has.
    pub fn order(&mut self, sheet: &mut [u8]) -> Result<usize, Refusal>
        ensures served { Served A.Archived P.Pool.limits self.old (orders sheet.old) (of_order result) self.new }
        ensures sheet { sheet.new ≡ sheet_after A.Amount.ops (state_of A.Archived P.Pool.limits self.old) (orders sheet.old) }
    {
        if self.table.is_shut::<A>() {
            return Err(Refusal::Shut);
        }
        seat_all(&self.table.rows, &mut self.trial);
        lay_order(&mut self.trial, &self.pile, sheet)
    }

    // Whether no open session holds anything.
    pub fn all_in(&self) -> Result<bool, Refusal>
        ensures { of_question result ≡ answer A.Amount.ops (state_of A.Archived P.Pool.limits self.now) all_in }
    {
        if self.table.is_shut::<A>() {
            return Err(Refusal::Shut);
        }
        Ok(!some_holding::<A>(&self.table.rows))
    }
}
