//! The states of a port.

/// The state of a port in stateful RA-Guard (RFC 6105 section 3).
#[derive(Clone, Copy, PartialEq, Eq, Debug)]
pub enum Guard {
    /// The window is open: advertisements are dropped and learned from.
    Learning,
    /// Advertisements are dropped.
    Blocking,
    /// Advertisements pass where they are good and acceptable.
    Forwarding,
}
