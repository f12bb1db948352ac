ghost use Rattle.std.specs.Prelude.{◌≡◌, replicate};
ghost use Rattle.rows.specs.Cells.{amount_in, with_amount};

use amount::Amount;
use archive::Archived;

// 16 bytes of a row, of which the first W hold an amount.
#[derive(Clone, Copy, Debug, Eq, PartialEq)]
pub struct Cell {
    bytes: [u8; 16],
}

impl Cell {
    pub fn blank() -> Cell
        ensures { result.bytes ≡ replicate 16 0 }
    {
        Cell { bytes: [0; 16] }
    }

    // The amount that the cell holds; zero where the kind is wider than the cell.
    pub fn read<A: Archived>(&self) -> A
        ensures { result ≡ amount_in A.Archived self.now }
    {
        let w = A::W;
        if w > 16 {
            return A::zero();
        }
        A::read(&self.bytes[..w]).unwrap_or(A::zero())
    }

    // Writes the amount into the first W bytes; the others stay, and all do where the kind is wider than the cell.
    pub fn write<A: Archived>(&mut self, amount: A)
        ensures { self.new ≡ with_amount A.Archived amount self.old }
    {
        let w = A::W;
        if w <= 16 {
            let _ = amount.write(&mut self.bytes[..w]);
        }
    }
}
