ghost use Rattle.std.specs.Prelude.{◌≤◌, Some};
ghost use Rattle.amount.specs.Words.{set_text};

use std::fmt;

// The members of a set: the numbers below `count` whose bits are set.
#[derive(Clone, Copy, Debug, PartialEq, Eq)]
pub struct Members {
    pub bits: u64,
    pub count: u32,
    ghost within: { count ≤ 64 },
}

impl fmt::Display for Members {
    ghost output = { λ s. Some (set_text s.count s.bits) };

    #[tactic(auto, unfolding(crate::specs::Words::members_text))]
    fn fmt<W: fmt::Write>(&self, f: &mut fmt::Formatter<W>) -> fmt::Result {
        f.write_str("{")?;
        for m in 0..self.count {
            if (self.bits >> m) % 2 == 1 {
                write!(f, " {m}")?;
            }
        }
        f.write_str(" }")
    }
}
