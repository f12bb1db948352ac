ghost use Rattle.std.specs.Prelude.{◌≡◌, ◌≤◌, is_some, slice_index_or};
ghost use Rattle.law.specs.Book.{slip_bay};
ghost use Rattle.book.specs.Tables.{no_row, is_shut, rows_in, known, sitting, spending};

use crate::slip::Slip;
use crate::table::{Table, some_moving};
use amount::Amount;
use archive::Archived;
use orders::Session;
use rows::{Refusal, RowCall, RowState, turn};

impl Table {
    // A kind wider than 16 bytes shuts every book. Each call asks it: a guard that answers refusal 1 would be no shorter there.
    pub(crate) fn is_shut<A: Archived>(&self) -> bool
        ensures { result ≡ is_shut A.Archived.W self.now }
    {
        A::W > 16 || self.shut
    }

    // Whether a slip of this book is out.
    pub(crate) fn slip_out<A: Archived>(&self) -> bool
        ensures { result ≡ is_some (slip_bay (rows_in A.Archived self.now)) }
    {
        some_moving(&self.rows)
    }

    // Refusals 1 and 2.
    pub(crate) fn known<A: Archived>(&self, bay: u8) -> Result<(), Refusal>
        ensures { result ≡ known (is_shut A.Archived.W self.now) bay }
    {
        if self.is_shut::<A>() {
            return Err(Refusal::Shut);
        }
        if bay > 63 {
            return Err(Refusal::NoBay);
        }
        Ok(())
    }

    // The session at an open bay, and the state after the call: refusals 1, 2, 4 and 6.
    pub(crate) fn sitting<A: Archived>(
        &self,
        bay: u8,
        call: RowCall,
    ) -> Result<(RowState, Session<A>), Refusal>
        ensures { result ≡ sitting A.Archived self.now bay call }
    {
        self.known::<A>(bay)?;
        if self.slip_out::<A>() {
            return Err(Refusal::Moving);
        }
        let row = self.rows[usize::from(bay)];
        let next = turn(row.state, call)?;
        let session = row.session().ok_or(Refusal::Empty)?;
        Ok((next, session))
    }

    // The state of the slip's bay after the call: refusals 1 and 13.
    pub(crate) fn spending<A: Archived>(
        &self,
        slip: &Slip,
        call: RowCall,
    ) -> Result<RowState, Refusal>
        ensures answer { result ≡ spending A.Archived.W self.now slip.now call }
        ensures past { 64 ≤ slip.now.bay → slice_index_or self.now.rows slip.now.bay no_row ≡ no_row }
    {
        if self.is_shut::<A>() {
            return Err(Refusal::Shut);
        }
        if slip.book != self.number {
            return Err(Refusal::WrongSlip);
        }
        let row = self
            .rows
            .get(usize::from(slip.bay))
            .ok_or(Refusal::WrongSlip)?;
        turn(row.state, call)
    }
}
