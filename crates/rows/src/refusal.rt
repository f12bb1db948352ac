ghost use Rattle.std.specs.Prelude.{◌≡◌};
ghost use Rattle.rows.specs.Legend.{number_of, place_of};
ghost use Rattle.rows.specs.declared.refusal.Refusal.TheVariants.{NoRoom, ShortSheet as SheetShort};

use pool::LimitFault;
use search::ShortSheet;

// Why a call of the book is refused.
#[derive(Clone, Copy, Debug, Eq, PartialEq)]
pub enum Refusal {
    // the book was made shut
    Shut,
    // the bay is above 63
    NoBay,
    // the mark is above 15
    NoMark,
    // a slip of this book is out
    Moving,
    // open on an open bay
    Taken,
    // the bay is empty
    Empty,
    // the claim is no part of a limit's ceiling: the limit's own fault, whole
    TallClaim(LimitFault),
    // holding plus amount is undefined or not part of the claim
    AboveClaim,
    // a limit has no room for the amount: its own fault, whole
    NoRoom(LimitFault),
    // there is no completion order; on an ask, with the amount granted
    PutOff,
    // the amount is not part of the holding
    MoreThanHeld,
    // the sheet has fewer than 64 bytes
    ShortSheet,
    // another book's slip, or its bay is not moving
    WrongSlip,
    // the pile refuses to take back what the rows say is held: the limit's own fault, whole
    Torn(LimitFault),
}

impl From<LimitFault> for Refusal {
    ghost from_gives = { λ e r. r ≡ NoRoom e };

    fn from(e: LimitFault) -> Refusal {
        Refusal::NoRoom(e)
    }
}

impl From<ShortSheet> for Refusal {
    ghost from_gives = { λ e r. r ≡ SheetShort };

    fn from(_e: ShortSheet) -> Refusal {
        Self::ShortSheet
    }
}

impl Refusal {
    // The number that the legend gives it.
    pub fn number(&self) -> u8
        ensures { result ≡ number_of self.now }
    {
        match self {
            Refusal::Shut => 1,
            Refusal::NoBay => 2,
            Refusal::NoMark => 3,
            Refusal::Moving => 4,
            Refusal::Taken => 5,
            Refusal::Empty => 6,
            Refusal::TallClaim(_) => 7,
            Refusal::AboveClaim => 8,
            Refusal::NoRoom(_) => 9,
            Refusal::PutOff => 10,
            Refusal::MoreThanHeld => 11,
            Refusal::ShortSheet => 12,
            Refusal::WrongSlip => 13,
            Refusal::Torn(_) => 14,
        }
    }

    // The place that is told: of the limit that refuses a claim or an ask.
    pub fn place(&self) -> Option<u8>
        ensures { result ≡ place_of self.now }
    {
        match self {
            Refusal::TallClaim(fault) | Refusal::NoRoom(fault) => Some(fault.place),
            _ => None,
        }
    }
}
