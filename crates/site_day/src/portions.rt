ghost use Rattle.std.specs.Prelude.{◌≡◌, MatchResult};
ghost use Rattle.law.specs.Book.{asks, answer, step, sheet_after};
ghost use Rattle.book.specs.Books.{state_of};
ghost use Rattle.book.specs.Replies.{slip_of, of_spent};
ghost use Rattle.book.specs.Served.{Served};
ghost use Rattle.site_day.specs.Portions.{slip_for, of_portion, spends};
ghost use Rattle.site_day.specs.declared.contactor.Contactor.TheVariants.{Fails};

use crate::contactor::Contactor;
use amount::Amount;
use archive::Archived;
use book::{Book, Grant, Slip, Unspent};
use pool::Pool;
use rows::Refusal;

// Spends the slip by what the contactor did. By a value and not a closure: the clause names the call that it stands for.
fn spend<A: Archived, P: Pool<A>>(
    book: &mut Book<A, P>,
    slip: Slip,
    contactor: Contactor,
) -> Result<(), Unspent>
    ensures { Served A.Archived P.Pool.limits book.old (spends contactor (slip_of slip)) (of_spent result) book.new }
{
    match contactor {
        Contactor::Closes => book.confirm(slip),
        Contactor::Fails => book.withdraw(slip),
    }
}

// Asks, and spends the slip where it is granted: a contactor that fails leaves the book as it was.
// Answers how many bays the order has.
pub(crate) fn ask_and_spend<A: Archived, P: Pool<A>>(
    book: &mut Book<A, P>,
    bay: u8,
    amount: A,
    sheet: &mut [u8],
    contactor: Contactor,
) -> Result<usize, Refusal>
    ensures answer { of_portion (slip_for (state_of A.Archived P.Pool.limits book.old) bay) result ≡ answer A.Amount.ops (state_of A.Archived P.Pool.limits book.old) (asks bay amount sheet.old) }
    ensures after { MatchResult result (λ _. state_of A.Archived P.Pool.limits book.new ≡ step A.Amount.ops (step A.Amount.ops (state_of A.Archived P.Pool.limits book.old) (asks bay amount sheet.old)) (spends contactor (slip_for (state_of A.Archived P.Pool.limits book.old) bay))) (λ _. state_of A.Archived P.Pool.limits book.new ≡ state_of A.Archived P.Pool.limits book.old) }
    ensures failed { contactor ≡ Fails → state_of A.Archived P.Pool.limits book.new ≡ state_of A.Archived P.Pool.limits book.old }
    ensures sheet { sheet.new ≡ sheet_after A.Amount.ops (state_of A.Archived P.Pool.limits book.old) (asks bay amount sheet.old) }
{
    let Grant { count, slip } = book.ask(bay, amount, sheet)?;
    match spend(book, slip, contactor) {
        Ok(()) => Ok(count),
        Err(
            Unspent {
                refusal: _,
                slip: _slip,
            },
        ) => unreachable(),
    }
}
