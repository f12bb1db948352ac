ghost use Rattle.std.specs.Prelude.{◌≡◌, ◌<◌};

// Whole amperes on one phase.
#[derive(Clone, Copy, Debug, PartialEq, Eq)]
pub struct Amps {
    pub value: u16,
    ghost fits: { value < 65536 },
}

impl From<u16> for Amps {
    ghost from_gives = { λ value a. a.value ≡ value };

    fn from(value: u16) -> Amps {
        Amps { value }
    }
}
