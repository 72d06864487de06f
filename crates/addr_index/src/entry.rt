//! What an index holds of an address.

/// An address, as a number in network order, with its key.
#[derive(Clone, Copy, PartialEq, Eq, Debug)]
pub struct Entry {
    pub address: u128,
    pub key: u32,
}
