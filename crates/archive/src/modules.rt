ghost use Rattle.archive.specs.Kinds.{modules_bytes, modules_decode};
ghost use Rattle.archive.specs.Codecs.{modules_codec};

use crate::archived::{Archived, WrongLength};
use crate::fill::fill;
use amount::Modules;

impl Archived for Modules {
    const W: usize = 8;

    ghost W = { 8 };

    ghost bytes = { modules_bytes };

    ghost decode = { modules_decode };

    ghost codec = { modules_codec };

    fn read(from: &[u8]) -> Option<Modules> {
        let bytes = <[u8; 8]>::try_from(from).ok()?;
        Some(Modules::from(u64::from_be_bytes(bytes)))
    }

    fn write(self, out: &mut [u8]) -> Result<(), WrongLength> {
        fill(out, &self.names.to_be_bytes())
    }
}
