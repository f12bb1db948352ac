use orders::Session;
use std::marker::Model;

// The bays of one search, with their sessions. Fixed memory, which its owner keeps: a search asks for none.
#[derive(Drop)]
pub struct Trial<A> {
    pub(crate) bays: [Option<Session<A>>; 64],
}

// Contracts see the bays.
impl<A> Model for Trial<A> {
    ghost use Rattle.std.specs.Prelude.{◌≡◌, length};
    ghost use Rattle.orders.specs.Sessions.{Bays};

    ghost Value = { Bays A };

    ghost view = { λ t. t.bays };

    ghost invariant = { λ t. length t.bays ≡ 64 };
}
