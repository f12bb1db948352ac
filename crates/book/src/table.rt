ghost use Rattle.std.specs.Prelude.{◌≡◌, map, replicate, is_some};
ghost use Rattle.pool.specs.Limits.{lowest_place};
ghost use Rattle.law.specs.Book.{seen};
ghost use Rattle.rows.specs.Rows.{vacant, row_of};
ghost use Rattle.book.specs.Tables.{moves};

use amount::Amount;
use archive::Archived;
use rows::{Row, RowState};
use search::Trial;

// The 64 rows of a book, with its number and whether it was made shut. A plain table: the rules name that form.
#[derive(Clone, Copy, Debug, PartialEq, Eq)]
pub(crate) struct Table {
    pub(crate) number: u32,
    pub(crate) shut: bool,
    pub(crate) rows: [Row; 64],
}

impl Table {
    // Every bay empty.
    pub(crate) fn vacant(number: u32, shut: bool) -> Table
        ensures { result ≡ record { number = number; shut = shut; rows = replicate 64 vacant } }
    {
        Table {
            number,
            shut,
            rows: [Row::vacant(); 64],
        }
    }
}

// Whether some bay moves.
pub(crate) fn some_moving(rows: &[Row; 64]) -> bool
    ensures { result ≡ is_some (lowest_place moves rows.now) }
{
    rows.iter().any(|row| row.state == RowState::Moving)
}

// Seats every session at its bay: each row is decoded once.
pub(crate) fn seat_all<A: Archived>(rows: &[Row; 64], trial: &mut Trial<A>)
    ensures { trial.new ≡ seen (map (row_of A.Archived) rows.now) }
{
    for (bay, row) in (0..64u8).zip(rows) {
        trial.seat(bay, row.session());
    }
}
