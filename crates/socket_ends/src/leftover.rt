//! What is left of a piece.

use std::alloc::{AllocError, Global};

/// So much of a piece may be left, in octets.
const LEFT_MOST: usize = 65_536;

/// What is left of a piece of which a peer took a part before it rested. It is sent before anything else is, so that the
/// records of the stream stay whole.
#[derive(Drop)]
pub(crate) struct Leftover {
    octets: Vec<u8>,
    sent: usize,
}

impl Leftover {
    /// Nothing is left yet. All its memory is taken here.
    pub fn make(alloc: Global) -> Result<Leftover, AllocError> {
        Ok(Leftover {
            octets: Vec::with_capacity(alloc, LEFT_MOST)?,
            sent: 0,
        })
    }

    /// The octets that are left. O(1).
    pub fn octets(&self) -> &[u8] {
        self.octets.as_slice().get(self.sent..).unwrap_or(&[])
    }

    /// Keeps so many of them, the last ones. O(1).
    pub fn shorten_to(&mut self, count: usize) {
        self.sent = self.octets.len().saturating_sub(count);
    }

    /// Takes this in place of what was left, and says whether there was room for it. O(n) in its octets.
    pub fn replace(&mut self, left: &[u8]) -> bool {
        self.octets.clear();
        self.sent = 0;
        left.len() <= LEFT_MOST && self.octets.extend_from_slice(left).is_ok()
    }
}
