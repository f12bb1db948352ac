ghost use Rattle.archive.specs.Kinds.{pair_bytes, pair_decode};
ghost use Rattle.archive.specs.Widths.{joined};
ghost use Rattle.archive.specs.Codecs.{pair_codec};

use crate::archived::{Archived, WrongLength};
use crate::width::joined;
use amount::Pair;

impl<L: Archived, R: Archived> Archived for Pair<L, R> {
    const W: usize = joined(L::W, R::W);

    ghost W = { joined L.Archived.W R.Archived.W };

    ghost bytes = { pair_bytes L.Archived.bytes R.Archived.bytes };

    ghost decode = { pair_decode L.Archived.W R.Archived.W L.Archived.decode R.Archived.decode };

    ghost codec = { pair_codec L.Archived.codec R.Archived.codec };

    fn read(from: &[u8]) -> Option<Pair<L, R>> {
        if Self::W > 16 || from.len() != Self::W {
            return None;
        }
        let (front, back) = from.split_at(L::W);
        Some(Pair {
            left: L::read(front)?,
            right: R::read(back)?,
        })
    }

    fn write(self, out: &mut [u8]) -> Result<(), WrongLength> {
        if Self::W > 16 || out.len() != Self::W {
            return Err(WrongLength);
        }
        let (front, back) = out.split_at_mut(L::W);
        self.left.write(front)?;
        self.right.write(back)
    }
}
