//! What the chain of extension headers comes to.

/// Where the chain of extension headers of a packet ends.
#[derive(Clone, Copy, PartialEq, Eq, Debug)]
pub enum Chain {
    /// The chain breaks a rule of its format.
    Bad(ChainFault),
    /// The packet is a first fragment, and its chain or its upper header isn't whole (RFC 7112).
    Hidden,
    /// The chain ends at a next-header value that isn't known.
    Unknown(u8),
    /// The packet is a fragment behind the first, so its upper header isn't in it (RFC 8200 section 4.5).
    Later,
    /// The chain ends at an upper header.
    Upper {
        /// The next-header value of the upper header.
        proto: u8,
        /// The place within the body, in octets, at which the upper header begins. The body is what the payload
        /// length counts: it begins behind the fixed header of 40 octets.
        at: u16,
        /// A fragment header stands before it, so the packet is a first fragment or a whole packet in one fragment
        /// (RFC 8200 section 4.5, RFC 6946).
        fragmented: bool,
    },
}

/// What is wrong with a chain.
#[derive(Clone, Copy, PartialEq, Eq, Debug)]
pub enum ChainFault {
    /// A header, or the least of an upper header, goes past the end of the body.
    Cut,
    /// Hop-by-hop options stand elsewhere than first (RFC 8200 section 4.1).
    HopByHop,
    /// There are two fragment headers (RFC 8200 section 4.1).
    Twice,
}
