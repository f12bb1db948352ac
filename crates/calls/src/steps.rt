ghost use Rattle.std.specs.Prelude.{◌≡◌};
ghost use Rattle.book.specs.Books.{state_of};
ghost use Rattle.calls.specs.Held.{Held, handed_back};

use crate::sample::Sample;
use amount::{Amount, Modules, Pair, Phases};
use archive::Archived;
use book::{Book, Grant, Slip, Unspent};
use pool::{Cap, Pool, Reserve, Store};
use rows::Refusal;
use std::process::Abort;
use std::test::Fail;

// A call with its arguments, an amount as the number of its sample. A sheet by the case, so that each call of a table stays on
// its line.
#[derive(Clone, Copy, Debug, PartialEq, Eq)]
pub(crate) enum Call {
    Open(u8, u8, u64),
    Ask(u8, u64),
    // with a sheet of 63 bytes
    ShortAsk(u8, u64),
    // with one of 80
    LongAsk(u8, u64),
    Confirm,
    Withdraw,
    // the slip that is out, spent at the other book
    ConfirmThere,
    WithdrawThere,
    // a session at the other book
    OpenThere(u8, u8, u64),
    Give(u8, u64),
    End(u8),
    Order,
    ShortOrder,
    LongOrder,
    AllIn,
}

// The answer that is due. A refusal by number and place, as the rules tell it, so that a table of calls reads beside theirs.
#[derive(Clone, Copy, Debug, PartialEq, Eq)]
pub(crate) enum Due<'a> {
    Done,
    // the order on the sheet
    Named(&'a [u8]),
    Says(bool),
    // a refusal by its number
    Refused(u8),
    // with the place of the limit that refuses
    At(u8, u8),
}

// What an accepted call answers.
#[derive(Clone, Copy, Debug, PartialEq, Eq)]
enum Reply {
    Done,
    Named(usize),
    Says(bool),
}

// What came of a call; absent where there is no slip to spend.
type Answer = Option<Result<Reply, Refusal>>;

fn done(r: Result<(), Refusal>) -> Answer {
    Some(r.map(|()| Reply::Done))
}

// What came of spending a slip, and the slip where it was handed back. Each call that spends one looks
// for it itself, and spends it at the one book or the other.
fn spent(r: Result<(), Unspent>) -> (Answer, Option<Slip>)
    ensures { result.1 ≡ handed_back r }
{
    match r {
        Ok(()) => (Some(Ok(Reply::Done)), None),
        Err(Unspent { refusal, slip }) => (Some(Err(refusal)), Some(slip)),
    }
}

// One call, with the slip that is out before it and the one that is out after it.
fn serve<A: Sample, P: Pool<A>>(
    book: &mut Book<A, P>,
    held: Option<Slip>,
    call: Call,
    sheet: &mut [u8],
) -> (Answer, Option<Slip>)
    requires { Held (state_of A.Archived P.Pool.limits book.old) held }
    ensures { Held (state_of A.Archived P.Pool.limits book.new) result.1 }
{
    match call {
        Call::Open(bay, mark, n) => (done(book.open(bay, mark, A::of(n))), held),
        Call::Ask(bay, n) | Call::ShortAsk(bay, n) | Call::LongAsk(bay, n) => match book.ask(
            bay,
            A::of(n),
            sheet,
        ) {
            Err(refusal) => (Some(Err(refusal)), held),
            Ok(Grant { count, slip }) => match held {
                None => (Some(Ok(Reply::Named(count))), Some(slip)),
                Some(_other) => unreachable(),
            },
        },
        Call::Confirm => match held {
            None => (None, None),
            Some(slip) => spent(book.confirm(slip)),
        },
        Call::Withdraw => match held {
            None => (None, None),
            Some(slip) => spent(book.withdraw(slip)),
        },
        Call::Give(bay, n) => (done(book.give(bay, A::of(n))), held),
        Call::End(bay) => (done(book.end(bay)), held),
        Call::Order | Call::ShortOrder | Call::LongOrder => (
            Some(book.order(sheet).map(Reply::Named)),
            held,
        ),
        Call::AllIn => (Some(book.all_in().map(Reply::Says)), held),
        Call::ConfirmThere | Call::WithdrawThere | Call::OpenThere(_, _, _) => (None, held),
    }
}

// The slip that is still out.
fn settle<A: Archived, P: Pool<A>>(book: &mut Book<A, P>, held: Option<Slip>)
    requires { Held (state_of A.Archived P.Pool.limits book.old) held }
{
    match held {
        None => {}
        Some(slip) => match book.confirm(slip) {
            Ok(()) => {}
            Err(_) => unreachable(),
        },
    }
}

// What a byte of a sheet is before a call.
const BLANK: u8 = 0xEE;

// What the questions answer, with the sheet of the order.
#[derive(Clone, Copy, Debug, PartialEq, Eq)]
struct Glance {
    order: Result<usize, Refusal>,
    sheet: [u8; 64],
    all_in: Result<bool, Refusal>,
}

// The questions leave the book as it was.
fn seen_at<A: Archived, P: Pool<A>>(book: &mut Book<A, P>) -> Glance
    ensures { state_of A.Archived P.Pool.limits book.new ≡ state_of A.Archived P.Pool.limits book.old }
{
    let mut sheet = [BLANK; 64];
    let order = book.order(&mut sheet);
    let all_in = book.all_in();
    Glance {
        order,
        sheet,
        all_in,
    }
}

// Whether the sheet has the order in front, and is as it was behind it.
fn laid(sheet: &[u8; 80], order: &[u8]) -> bool {
    sheet.starts_with(order) && sheet.iter().skip(order.len()).all(|byte| *byte == BLANK)
}

// Whether the answer and the sheet are as is due.
fn right(answer: Answer, sheet: &[u8; 80], due: Due) -> bool {
    match (answer, due) {
        (Some(Ok(Reply::Done)), Due::Done) => laid(sheet, &[]),
        (Some(Ok(Reply::Named(count))), Due::Named(order)) => {
            count == order.len() && laid(sheet, order)
        }
        (Some(Ok(Reply::Says(yes))), Due::Says(all)) => yes == all && laid(sheet, &[]),
        (Some(Err(refusal)), Due::Refused(number)) => {
            refusal.number() == number && refusal.place() == None && laid(sheet, &[])
        }
        (Some(Err(refusal)), Due::At(number, place)) => {
            refusal.number() == number && refusal.place() == Some(place) && laid(sheet, &[])
        }
        _ => false,
    }
}

// One call at its book, on a sheet of 64 bytes unless the call says otherwise.
fn made<A: Sample, P: Pool<A>, B: Sample, Q: Pool<B>>(
    book: &mut Book<A, P>,
    other: &mut Book<B, Q>,
    held: Option<Slip>,
    call: Call,
    sheet: &mut [u8; 80],
) -> (Answer, Option<Slip>)
    requires { Held (state_of A.Archived P.Pool.limits book.old) held }
    ensures { Held (state_of A.Archived P.Pool.limits book.new) result.1 }
{
    match call {
        Call::ConfirmThere => match held {
            None => (None, None),
            Some(slip) => spent(other.confirm(slip)),
        },
        Call::WithdrawThere => match held {
            None => (None, None),
            Some(slip) => spent(other.withdraw(slip)),
        },
        Call::OpenThere(bay, mark, n) => (done(other.open(bay, mark, B::of(n))), held),
        Call::ShortAsk(_, _) | Call::ShortOrder => serve(book, held, call, &mut sheet[0..63]),
        Call::LongAsk(_, _) | Call::LongOrder => serve(book, held, call, &mut sheet[0..80]),
        _ => serve(book, held, call, &mut sheet[0..64]),
    }
}

// One call, and whether it is answered as is due; a refusal leaves what the questions answer.
fn turn<A: Sample, P: Pool<A>, B: Sample, Q: Pool<B>>(
    book: &mut Book<A, P>,
    other: &mut Book<B, Q>,
    held: Option<Slip>,
    call: Call,
    due: Due,
) -> (bool, Option<Slip>)
    requires { Held (state_of A.Archived P.Pool.limits book.old) held }
    ensures { Held (state_of A.Archived P.Pool.limits book.new) result.1 }
{
    let here = seen_at(book);
    let there = seen_at(other);
    let mut sheet = [BLANK; 80];
    let (answer, next) = made(book, other, held, call, &mut sheet);
    let same = here == seen_at(book) && there == seen_at(other);
    let refused = matches!(answer, Some(Err(_)));
    (right(answer, &sheet, due) && (same || !refused), next)
}

// Makes the calls in turn: each is answered as is due.
pub(crate) fn play<A: Sample, P: Pool<A>, B: Sample, Q: Pool<B>>(
    rt: &impl Abort,
    kind: &str,
    book: &mut Book<A, P>,
    other: &mut Book<B, Q>,
    steps: &[(Call, Due)],
) -> Result<(), Fail> {
    let mut held = None;
    let mut wrong = None;
    for (i, &(call, due)) in steps.iter().enumerate() {
        let (right, next) = turn(book, other, held, call, due);
        held = next;
        wrong = wrong.or((!right).then_some(i));
    }
    settle(book, held);
    assert_eq!(rt;
        wrong,
        None,
        "{kind}: the first call that is not answered as is due"
    );
    Ok(())
}

// Makes the calls at book 1, over a store of each kind: phases, modules, and pairs of both.
// Each kind by name: a function over the kind was tried, and no proof there knows that its book has a size.
pub(crate) fn play_each(
    rt: &impl Abort,
    there: u32,
    whole: u64,
    steps: &[(Call, Due)],
) -> Result<(), Fail> {
    play(
        rt,
        "phases",
        &mut Book::new(1, Store::new(Phases::of(whole))),
        &mut Book::new(there, Store::new(Phases::of(whole))),
        steps,
    )?;
    play(
        rt,
        "modules",
        &mut Book::new(1, Store::new(Modules::of(whole))),
        &mut Book::new(there, Store::new(Modules::of(whole))),
        steps,
    )?;
    play(
        rt,
        "pairs",
        &mut Book::new(1, Store::new(Pair::<Phases, Modules>::of(whole))),
        &mut Book::new(there, Store::new(Pair::<Phases, Modules>::of(whole))),
        steps,
    )
}

// Place 0 a store, place 1 a cap for marks 1 and 2, place 2 a reserve for number 0.
fn pile<A: Sample>() -> Result<Reserve<A, Cap<A, Store<A>>>, Fail> {
    let store = Store::new(A::of(0x00FF_0000_0000_00FF));
    let cap = Cap::new(store, 6, A::of(0x000F_0000_0000_000F));
    Reserve::new(cap, 0, A::of(0x0080_0000_0000_0080)).map_err(|_| Fail::new("tall reserve"))
}

// A book that no call is made at.
pub(crate) fn aside() -> Book<Phases, Store<Phases>> {
    Book::new(2, Store::new(Phases::of(0)))
}

// Makes the calls over a pile of three places, of each kind, by name as above.
pub(crate) fn play_piled(rt: &impl Abort, steps: &[(Call, Due)]) -> Result<(), Fail> {
    play_counted(rt, steps)?;
    play(
        rt,
        "modules",
        &mut Book::new(1, pile::<Modules>()?),
        &mut aside(),
        steps,
    )?;
    play(
        rt,
        "pairs",
        &mut Book::new(1, pile::<Pair<Phases, Modules>>()?),
        &mut aside(),
        steps,
    )
}

// The same of the kinds that are counted: phases, and pairs with them.
pub(crate) fn play_counted(rt: &impl Abort, steps: &[(Call, Due)]) -> Result<(), Fail> {
    play(
        rt,
        "phases",
        &mut Book::new(1, pile::<Phases>()?),
        &mut aside(),
        steps,
    )?;
    play(
        rt,
        "pairs apart",
        &mut Book::new(1, pile::<Pair<Modules, Phases>>()?),
        &mut aside(),
        steps,
    )
}
