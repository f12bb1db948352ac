ghost use Rattle.std.specs.Prelude.{◌≡◌, ℕ, MatchResult};
ghost use Rattle.law.specs.Book.{Reply, order_answer, filled};
ghost use Rattle.law.specs.SafeOrder.{safe_order};
ghost use Rattle.book.specs.Replies.{of_count};

use amount::Amount;
use pool::Pool;
use rows::Refusal;
use search::Trial;

// The order in which every session seated can finish over the pile, on the front of the sheet: refusals 10 and 12.
pub(crate) fn lay_order<A: Amount, P: Pool<A>>(
    trial: &mut Trial<A>,
    pile: &P,
    sheet: &mut [u8],
) -> Result<usize, Refusal>
    ensures answer { (reply : ℕ → Reply) → of_count reply result ≡ order_answer A.Amount.ops (P.Pool.limits pile.now) trial.old sheet.old reply }
    ensures sheet { MatchResult result (λ _. sheet.new ≡ filled A.Amount.ops (safe_order A.Amount.ops (P.Pool.limits pile.now) trial.old) sheet.old) (λ _. sheet.new ≡ sheet.old) }
{
    let order = trial.completion_order(pile).ok_or(Refusal::PutOff)?;
    let count = order.fill(sheet)?;
    Ok(count)
}
