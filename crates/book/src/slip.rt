ghost use Rattle.std.specs.Prelude.{◌≡◌};
ghost use Rattle.book.specs.Replies.{spent};

use rows::Refusal;

// A granted ask: a token that is neither copied nor dropped, spent by confirm or withdraw.
#[derive(Debug, PartialEq, Eq)]
pub struct Slip {
    pub(crate) book: u32,
    pub(crate) bay: u8,
}

// What a granted ask answers: how many bays the order has, and the slip.
#[derive(Debug, PartialEq, Eq)]
pub struct Grant {
    pub count: usize,
    pub slip: Slip,
}

// What a refused confirm or withdraw answers: the slip comes back with the refusal.
#[derive(Debug, PartialEq, Eq)]
pub struct Unspent {
    pub refusal: Refusal,
    pub slip: Slip,
}

impl Slip {
    // Spent where the call is made; where it is refused, the slip comes back with the refusal. By a match: in a closure of
    // map_err the slip would have to be let go where the call is made.
    pub(crate) fn spent(self, call: Result<(), Refusal>) -> Result<(), Unspent>
        ensures { result ≡ spent self call }
    {
        match call {
            Ok(()) => {
                let Slip { book: _, bay: _ } = self;
                Ok(())
            }
            Err(refusal) => Err(Unspent {
                refusal,
                slip: self,
            }),
        }
    }
}
