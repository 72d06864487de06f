//! The judge of an ingress port in a live session: it takes what the reader of its port puts, and enters what came in.
//!
//! Each arrival comes in a box through the ring of the port (`parcel_ring`), is classed outside the lock (`frame_class`),
//! and entered in one turn of the port's pass. `Ingress::run` does so in one segment, up to the end of the input, or until
//! the segment has no room for an arrival, which is kept for the next one. `Ingress::round` does one step of that for a
//! thread that has the core without a lock. It knows no source and no clock: its contract says by what it took and keeps
//! what the segments then hold of the input (`InputStands` of `live_session`), and the reader's (`port_reader`) what was
//! put.
#![tactic(auto)]

mod entering;
mod judge;
mod rounds;
mod state;

pub use judge::Ingress;
