//! An index from IPv6 addresses to keys, such as the places of a slab.
//!
//! Contracts see an `AddrIndex` as its entries, and say of each address which key it has (`specs/Indexes.antt`). Nothing
//! takes memory but `AddrIndex::make`.
//!
//! Addresses: RFC 4291 section 2. Open addressing with a removal that leaves no mark: Knuth, The Art of Computer
//! Programming, volume 3, section 6.4, algorithms L and R.
#![tactic(auto)]

mod entry;
mod home;
mod index;
mod place;
mod places;
mod ring;

pub use entry::Entry;
pub use index::AddrIndex;
