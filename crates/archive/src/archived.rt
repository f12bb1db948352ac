ghost use Rattle.std.specs.Prelude.{◌≡◌, ℕ, List, Option as Maybe};
ghost use Rattle.archive.specs.Codec.{Codec};
ghost use Rattle.archive.specs.Writing.{Wrote};

use amount::Amount;

// The place has not exactly the kind's bytes, or the kind is wider than 16 bytes.
#[derive(Clone, Copy, Debug, PartialEq, Eq)]
pub struct WrongLength;

// A kind of amount that has bytes.
pub trait Archived: Amount {
    // how many bytes an amount of the kind has; 17 for anything above 16
    const W: usize;

    // the same number, as mathematics
    ghost W: { ℕ };

    // the bytes of an amount, high byte first
    ghost bytes: { Self → List ℕ };

    // the amount that has these bytes, if any
    ghost decode: { List ℕ → Maybe Self };

    // The amount that has just these bytes; absent where they are not exactly W, or W is above 16.
    fn read(from: &[u8]) -> Option<Self>
        ensures { result ≡ decode from.now };

    // Writes the amount into exactly the bytes given; a refusal leaves them as they were.
    fn write(self, out: &mut [u8]) -> Result<(), WrongLength>
        ensures { Wrote W (bytes self) out.old out.new result };

    // bytes and amounts are one for one
    ghost codec: { Codec W bytes decode };
}
