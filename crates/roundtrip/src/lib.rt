// Reading and writing a day file undo each other, for every archived kind.
#![tactic(auto)]

ghost use Rattle.roundtrip.specs.RoundTrip.{RoundTrip};

use archive::Archived;

// Nothing to run: the contract is the theorem, of the kind A.
pub fn round_trip<A: Archived>()
    ensures { RoundTrip A.Archived.W A.Archived.bytes A.Archived.decode }
{}
