//! What goes through the rings.
ghost use Rattle.std.specs.Prelude.{◌≡◌, ◌<◌, ◌≤◌, length};
ghost use Rattle.savi_kinds.specs.Arrivals.{Frame, Long};
ghost use Rattle.parcel_ring.specs.Handed.{Arrived, Ended, IsReadEnd};

use arrayvec::ArrayVec;
use savi_kinds::{FRAME_OCTETS_MOST, How};
use std::marker::Model;

/// What came at an input.
#[derive(Clone, Copy)]
pub enum Arrival<'a> {
    /// A frame of at most 1,518 octets; the stamp is in ms.
    Frame { stamp: u64, octets: &'a [u8] },
    /// A frame of `len` octets, more than 1,518, which were passed over; the stamp is in ms.
    Long { stamp: u64, len: u32 },
    /// The input ended so: at its end, at a place that is malformed, or by a read that failed. Nothing comes behind it.
    End(How),
}

/// What came, but for the octets of a frame.
#[derive(Clone, Copy)]
enum Kind {
    Frame { stamp: u64 },
    Long { stamp: u64, len: u32 },
    End(How),
}

/// Room for one arrival, and what came there last. It takes no memory of its own.
#[derive(Drop)]
pub struct Parcel {
    kind: Kind,
    octets: ArrayVec<u8, FRAME_OCTETS_MOST>,
}

impl Model for Parcel {
    ghost use Rattle.parcel_ring.specs.Handed.{Handed, MayBeHanded};
    ghost use Rattle.parcel_ring.specs.Parcels.{handed_of};

    ghost Value = { Handed };

    ghost view = { λ p. handed_of p.kind p.octets.items };

    ghost invariant = { λ p. MayBeHanded (handed_of p.kind p.octets.items) };
}

impl Parcel {
    ghost use Rattle.parcel_ring.specs.Handed.{MayBeHanded};
    ghost use Rattle.parcel_ring.specs.Lent.{handed_by};

    // A parcel in which nothing was put yet. As any, it has something in it.
    pub(crate) fn new() -> Parcel {
        Parcel {
            kind: Kind::End(How::End),
            octets: ArrayVec::new(),
        }
    }

    /// What came. O(1).
    pub fn arrival(&self) -> Arrival<'_>
        ensures came { handed_by result ≡ self.now }
        ensures may { MayBeHanded self.now }
    {
        match self.kind {
            Kind::Frame { stamp } => Arrival::Frame {
                stamp,
                octets: self.octets.as_slice(),
            },
            Kind::Long { stamp, len } => Arrival::Long { stamp, len },
            Kind::End(how) => Arrival::End(how),
        }
    }

    // Puts a frame in place of what is there.
    pub(crate) fn set_frame(&mut self, stamp: u64, octets: &[u8])
        requires { length octets.now ≤ FRAME_OCTETS_MOST }
        ensures { self.new ≡ Arrived (Frame stamp octets.now) }
    {
        self.octets.clear();
        match self.octets.try_extend_from_slice(octets) {
            Ok(()) => {}
            Err(_) => unreachable!(),
        }
        self.kind = Kind::Frame { stamp };
    }

    // Puts a longer frame, whose octets were passed over, in place of what is there.
    pub(crate) fn set_long(&mut self, stamp: u64, len: u32)
        requires { FRAME_OCTETS_MOST < len }
        ensures { self.new ≡ Arrived (Long stamp len) }
    {
        self.kind = Kind::Long { stamp, len };
    }

    // Puts how the input ended in place of what is there.
    pub(crate) fn set_end(&mut self, how: How)
        requires { IsReadEnd how }
        ensures { self.new ≡ Ended how }
    {
        self.kind = Kind::End(how);
    }
}
