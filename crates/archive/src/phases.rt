ghost use Rattle.archive.specs.Kinds.{phases_bytes, phases_decode};
ghost use Rattle.archive.specs.Codecs.{phases_codec};

use crate::archived::{Archived, WrongLength};
use amount::{Amps, Phases};

impl Archived for Phases {
    const W: usize = 6;

    ghost W = { 6 };

    ghost bytes = { phases_bytes };

    ghost decode = { phases_decode };

    ghost codec = { phases_codec };

    fn read(from: &[u8]) -> Option<Phases> {
        if from.len() != 6 {
            return None;
        }
        let (l1, rest) = from.split_at(2);
        let (l2, l3) = rest.split_at(2);
        Some(Phases {
            l1: Amps::read(l1)?,
            l2: Amps::read(l2)?,
            l3: Amps::read(l3)?,
        })
    }

    fn write(self, out: &mut [u8]) -> Result<(), WrongLength> {
        if out.len() != 6 {
            return Err(WrongLength);
        }
        let (l1, rest) = out.split_at_mut(2);
        let (l2, l3) = rest.split_at_mut(2);
        self.l1.write(l1)?;
        self.l2.write(l2)?;
        self.l3.write(l3)
    }
}
