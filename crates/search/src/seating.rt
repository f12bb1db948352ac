ghost use Rattle.std.specs.Prelude.{◌≡◌, length, replicate, None as Vacant, slice_set};
ghost use Rattle.orders.specs.Sessions.{open_bays};

use crate::trial::Trial;
use amount::Amount;
use orders::Session;

impl<A: Amount> Trial<A> {
    // Every bay empty.
    pub fn new() -> Trial<A>
        ensures { result ≡ replicate 64 Vacant }
    {
        Trial { bays: [None; 64] }
    }

    // How many bays there are.
    pub fn len(&self) -> usize
        ensures count { result ≡ 64 }
        ensures bays { length self.now ≡ 64 }
    {
        let bays: &[Option<Session<A>>] = &self.bays;
        bays.len()
    }

    // Seats a session at the bay, or leaves it empty; there is no bay above 63.
    pub fn seat(&mut self, bay: u8, session: Option<Session<A>>)
        ensures seated { self.new ≡ slice_set self.old bay session }
        ensures bays { length self.new ≡ 64 }
    {
        // By get_mut, which was tried, a proof knows how many bays there are, and not what is at them.
        if bay < 64 {
            self.bays[usize::from(bay)] = session;
        }
    }

    // How many bays have a session.
    pub(crate) fn open_bays(&self) -> usize
        ensures { result ≡ open_bays self.now }
    {
        self.bays.iter().filter(|bay| bay.is_some()).count()
    }
}
