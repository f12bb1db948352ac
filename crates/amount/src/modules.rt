ghost use Rattle.std.specs.Prelude.{◌≡◌, ◌^◌, ◌<◌};

// A set of named power modules 0 to 63: module m is in it where the bit worth 2 to the m is set.
#[derive(Clone, Copy, Debug, PartialEq, Eq)]
pub struct Modules {
    pub names: u64,
    ghost fits: { names < 2 ^ 64 },
}

impl From<u64> for Modules {
    ghost from_gives = { λ names m. m.names ≡ names };

    fn from(names: u64) -> Modules {
        Modules { names }
    }
}
