use std::marker::Model;

// A session at a bay: a firm's mark, the most that it may hold, and what it holds.
#[derive(Clone, Copy, Debug, PartialEq, Eq)]
pub struct Session<A> {
    pub mark: u8,
    pub claim: A,
    pub holding: A,
}

// Contracts see it as the session of the definitions.
impl<A> Model for Session<A> {
    ghost use Rattle.orders.specs.Sessions.{Session as Seated};

    ghost Value = { Seated A };

    ghost view = { λ s. record { mark = s.mark; claim = s.claim; holding = s.holding } };

    ghost inverse = { λ s. record { mark = s.mark; claim = s.claim; holding = s.holding } };
}
