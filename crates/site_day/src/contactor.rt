use std::fmt;

// What the contactor of a granted portion does: it closes and the slip is confirmed, or it fails and the slip is withdrawn.
#[derive(Clone, Copy, Debug, PartialEq, Eq)]
pub(crate) enum Contactor {
    Closes,
    Fails,
}

// What is done with the slip.
impl fmt::Display for Contactor {
    fn fmt<W: fmt::Write>(&self, f: &mut fmt::Formatter<W>) -> fmt::Result {
        f.write_str(match self {
            Contactor::Closes => "confirm",
            Contactor::Fails => "withdraw",
        })
    }
}
