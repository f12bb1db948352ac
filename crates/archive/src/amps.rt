ghost use Rattle.archive.specs.Kinds.{amps_bytes, amps_decode};
ghost use Rattle.archive.specs.Codecs.{amps_codec};

use crate::archived::{Archived, WrongLength};
use crate::fill::fill;
use amount::Amps;

impl Archived for Amps {
    const W: usize = 2;

    ghost W = { 2 };

    ghost bytes = { amps_bytes };

    ghost decode = { amps_decode };

    ghost codec = { amps_codec };

    fn read(from: &[u8]) -> Option<Amps> {
        let bytes = <[u8; 2]>::try_from(from).ok()?;
        Some(Amps::from(u16::from_be_bytes(bytes)))
    }

    fn write(self, out: &mut [u8]) -> Result<(), WrongLength> {
        fill(out, &self.value.to_be_bytes())
    }
}
