//! What a drain takes.

ghost use Rattle.std.specs.Prelude.{◌≡◌, ◌<◌, ◌≤◌, [], ◌∷◌, ◌++◌, length, slice_get, IfOk, Some};

use arrayvec::ArrayVec;
use eth_frame::CUSTOMER_TAG;
use savi_kinds::{DEPTH_MOST, FRAME_OCTETS_OUT_MOST, Moment};
use std::alloc::{AllocError, Global};
use std::marker::Model;

/// One frame or probe with its moment.
#[derive(Drop)]
pub struct Slot {
    moment: Moment,
    octets: ArrayVec<u8, FRAME_OCTETS_OUT_MOST>,
}

impl Model for Slot {
    ghost use Rattle.savi_history.specs.Queues.{Item};

    ghost Value = { Item };

    ghost view = { λ s. record { moment = s.moment; octets = s.octets.items } };
}

impl Slot {
    ghost use Rattle.std.specs.Prelude.{◌+◌};
    ghost use Rattle.savi_core.specs.Batches.{item_with};
    ghost use Rattle.savi_core.specs.Leaving.{tag_octets};

    /// A slot with nothing in it.
    fn new() -> Slot
        ensures { result ≡ item_with 0 [] }
    {
        Slot {
            moment: 0,
            octets: ArrayVec::new(),
        }
    }

    /// Puts an item in place of what is there: these octets, the tag of a VLAN where there is one, and these octets.
    fn set(&mut self, moment: Moment, front: &[u8], tag: Option<u16>, rest: &[u8])
        requires { length front.now + length rest.now ≤ 1518 }
        ensures { self.new ≡ item_with moment (front.now ++ tag_octets tag ++ rest.now) }
    {
        self.moment = moment;
        self.octets.clear();
        self.append(front);
        if let Some(vlan) = tag {
            let [kind_high, kind_low] = CUSTOMER_TAG.to_be_bytes();
            let [high, low] = vlan.to_be_bytes();
            self.append(&[kind_high, kind_low, high, low]);
        }
        if !rest.is_empty() {
            self.append(rest);
        }
    }

    // Appends octets for which there is room.
    fn append(&mut self, octets: &[u8])
        requires { length self.old.octets + length octets.now ≤ FRAME_OCTETS_OUT_MOST }
        ensures { self.new ≡ item_with self.old.moment (self.old.octets ++ octets.now) }
    {
        match self.octets.try_extend_from_slice(octets) {
            Ok(()) => {}
            Err(_) => unreachable!(),
        }
    }
}

/// The items that one drain took, frames or probes, each with its moment: at most 256. Contracts see them as a list.
#[derive(Drop)]
pub struct Batch {
    slots: Vec<Slot>,
    used: usize,
}

impl Model for Batch {
    ghost use Rattle.std.specs.Prelude.{◌≡◌, ◌≤◌, List, take, length};
    ghost use Rattle.savi_history.specs.Queues.{Item};

    ghost Value = { List Item };

    ghost view = { λ b. take b.used b.slots.items };

    ghost invariant = { λ b. (length b.slots.items ≡ 256) × (b.used ≤ 256) };
}

impl Batch {
    ghost use Rattle.std.specs.Prelude.{◌+◌};
    ghost use Rattle.savi_core.specs.Batches.{item_with};
    ghost use Rattle.savi_core.specs.Leaving.{tag_octets};

    /// An empty batch, with room for 256 items of 1,522 octets. It takes all its memory here.
    pub fn make(alloc: Global) -> Result<Batch, AllocError>
        ensures { IfOk result (λ batch. batch ≡ []) }
    {
        let mut slots = Vec::with_capacity(alloc, DEPTH_MOST as usize)?;
        while slots.len() < DEPTH_MOST as usize {
            slots.push(Slot::new())?;
        }
        Ok(Batch { slots, used: 0 })
    }

    /// How many items there are. O(1).
    pub fn len(&self) -> u32
        ensures { result ≡ length self.now }
    {
        self.used as u32
    }

    /// The octets of the item with this number, counted from 0, and its moment (ms). O(1).
    pub fn item(&self, i: u32) -> (u64, &[u8])
        requires { i < length self.now }
        ensures item { slice_get self.now i ≡ Some (item_with result.0 result.1.now) }
        ensures size { length result.1.now ≤ 1522 }
    {
        let slot = &self.slots[i as usize];
        (slot.moment, slot.octets.as_slice())
    }

    /// Gives up all items. O(1).
    pub(crate) fn clear(&mut self)
        ensures { self.new ≡ [] }
    {
        self.used = 0;
    }

    /// Adds a frame or a probe, which goes out with the tag of this VLAN behind the front of its octets, or with none. O(1)
    /// beside the copy of its octets, which are copied once.
    pub(crate) fn put(&mut self, moment: Moment, front: &[u8], tag: Option<u16>, rest: &[u8])
        requires room { length self.old < 256 }
        requires size { length front.now + length rest.now ≤ 1518 }
        ensures { self.new ≡ self.old ++ item_with moment (front.now ++ tag_octets tag ++ rest.now) ∷ [] }
    {
        self.slots[self.used].set(moment, front, tag, rest);
        self.used += 1;
    }
}
