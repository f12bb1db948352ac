ghost use Rattle.pool.specs.Theorems.{BoundsStay, ToldAsBytes};

use amount::Amount;

// Nothing to run: whatever is taken and given, the limits keep their marks and ceilings.
pub fn limits_stay<A: Amount>()
    ensures { BoundsStay A.Amount.ops }
{}

// Nothing to run: a place or a count up to 255 is told as it is, any above as 255.
pub fn places_are_told<A: Amount>()
    ensures { ToldAsBytes A.Amount.ops }
{}
