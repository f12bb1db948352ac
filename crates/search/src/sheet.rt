ghost use Rattle.std.specs.Prelude.{◌≤◌, length};
ghost use Rattle.search.specs.Sheets.{Filled};

use crate::order::Order;

// The sheet has fewer than 64 bytes.
#[derive(Clone, Copy, Debug, Eq, PartialEq)]
pub struct ShortSheet;

impl Order {
    // Lays the order on the front of the sheet, whose rest stays, and answers how many bays it has.
    // A short sheet is refused, and left as it was.
    pub fn fill(&self, sheet: &mut [u8]) -> Result<usize, ShortSheet>
        ensures filled { Filled self.now sheet.old sheet.new result }
        ensures fits { length self.now ≤ 64 }
    {
        let bays = &self.bays[..self.count];
        if sheet.len() < 64 {
            return Err(ShortSheet);
        }
        sheet[..bays.len()].copy_from_slice(bays);
        Ok(self.count)
    }
}
