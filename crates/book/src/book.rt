ghost use Rattle.std.specs.Prelude.{◌≡◌};
ghost use Rattle.law.specs.Book.{new as new_book};
ghost use Rattle.book.specs.Books.{state_of};
ghost use Rattle.book.specs.Days.{Days};

use crate::table::Table;
use amount::Amount;
use archive::Archived;
use pool::Pool;
use search::Trial;

// A book over a pile: who is at each bay, with what claim and what holding.
// A model as the machine's state was tried: a limit of it watches by a function, which has no code. So clauses go by state_of.
#[derive(Drop)]
pub struct Book<A, P> {
    pub(crate) table: Table,
    pub(crate) pile: P,
    // where a search has the bays: the book's own memory, so that a call asks for none
    pub(crate) trial: Trial<A>,
}

impl<A: Archived, P: Pool<A>> Book<A, P> {
    // A book with every bay empty; shut where the pile is not idle or the kind is wider than 16 bytes.
    pub fn new(number: u32, pile: P) -> Book<A, P>
        ensures made { state_of A.Archived P.Pool.limits result ≡ new_book A.Amount.ops A.Archived.W number (P.Pool.limits pile) }
        ensures law { Days A.Amount.ops A.Archived.W (P.Pool.limits pile) (state_of A.Archived P.Pool.limits result) }
    {
        Book {
            table: Table::vacant(number, !pile.idle()),
            pile,
            trial: Trial::new(),
        }
    }
}
