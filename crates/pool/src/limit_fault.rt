// A limit refuses: the lowest place that does, 255 for any above it.
#[derive(Clone, Copy, Debug, Eq, PartialEq)]
pub struct LimitFault {
    pub place: u8,
}
