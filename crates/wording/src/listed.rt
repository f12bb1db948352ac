ghost use Rattle.std.specs.Prelude.{◌≡◌, ℕ, List, Some, codes, refl};
ghost use Rattle.std.specs.Fmt.{◌++?◌};
ghost use Rattle.amount.specs.Words.{phases_text, modules_text, pair_text};

use amount::{Modules, Pair, Phases};
use archive::Archived;
use std::fmt;

// An archived kind whose amounts are told in words.
pub trait Listed: Archived + fmt::Display {
    // the text of an amount
    ghost words: { Self → List ℕ };

    // that is what an amount prints
    ghost told: { (a : Self) → Self.output a ≡ Some (words a) };
}

impl Listed for Phases {
    ghost words = { phases_text };

    ghost told = { λ _. refl };
}

impl Listed for Modules {
    ghost words = { modules_text };

    ghost told = { λ _. refl };
}

impl<L: Listed, R: Listed> Listed for Pair<L, R> {
    ghost words = { pair_text L.Listed.words R.Listed.words };

    ghost told = { λ p i. L.Listed.told p.left i ++? Some (codes " ") ++? R.Listed.told p.right i };
}
