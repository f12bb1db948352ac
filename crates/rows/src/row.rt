ghost use Rattle.std.specs.Prelude.{◌≡◌};
ghost use Rattle.law.specs.Book.{seen_row};
ghost use Rattle.rows.specs.Rows.{vacant, row_of};

use crate::cell::Cell;
use amount::Amount;
use archive::Archived;
use orders::Session;

// A bay is empty, at rest, or moving.
#[derive(Clone, Copy, Debug, Eq, PartialEq)]
pub enum RowState {
    Empty,
    AtRest,
    Moving,
}

// What is kept for one bay: a plain tag, and beside it the session's amounts as bytes. The rules keep a book in this form.
#[derive(Clone, Copy, Debug, Eq, PartialEq)]
pub struct Row {
    pub state: RowState,
    pub mark: u8,
    pub claim: Cell,
    pub holding: Cell,
    pub portion: Cell,
}

impl Row {
    // An empty bay.
    pub fn vacant() -> Row
        ensures { result ≡ vacant }
    {
        Row {
            state: RowState::Empty,
            mark: 0,
            claim: Cell::blank(),
            holding: Cell::blank(),
            portion: Cell::blank(),
        }
    }

    // The open session, if there is one, its bytes decoded.
    pub fn session<A: Archived>(&self) -> Option<Session<A>>
        ensures { result ≡ seen_row (row_of A.Archived self.now) }
    {
        match self.state {
            RowState::Empty => None,
            RowState::AtRest | RowState::Moving => Some(Session {
                mark: self.mark,
                claim: self.claim.read(),
                holding: self.holding.read(),
            }),
        }
    }
}
