//! The queue.

ghost use Rattle.std.specs.Prelude.{◌≡◌, ◌<◌, ◌≤◌, ◌↔◌, [], length, IsTrue, IfOk, MatchOption};
ghost use Rattle.std.specs.Bool.{OnTrue, OnFalse};
ghost use Rattle.egress_ring.specs.Waiting.{nothing_waits, with_last, with_first};

use crate::item::Item;
use circular_buffer::HeapCircularBuffer;
use std::alloc::{AllocError, Global};
use std::marker::Model;

/// The items that wait at one egress port, at most `depth` of them.
#[derive(Drop)]
pub struct EgressRing {
    buffer: HeapCircularBuffer<Item>,
}

impl Model for EgressRing {
    ghost use Rattle.std.specs.Prelude.{◌<◌, ◌^◌};
    ghost use Rattle.egress_ring.specs.Waiting.{Waiting};

    ghost Value = { Waiting };

    ghost view = { λ r. record { items = r.buffer.items; depth = r.buffer.capacity } };

    ghost invariant = { λ r. r.buffer.capacity < 2 ^ 32 };
}

impl EgressRing {
    /// An empty queue for `depth` items. It takes all its memory here.
    pub fn make(alloc: Global, depth: u32) -> Result<EgressRing, AllocError>
        ensures { IfOk result (λ ring. ring ≡ nothing_waits depth) }
    {
        let buffer = HeapCircularBuffer::with_capacity(alloc, depth as usize)?;
        Ok(EgressRing { buffer })
    }

    /// Puts an item behind the others. The answer is false, and nothing has changed, exactly where `depth` items wait.
    /// O(1).
    pub fn queue(&mut self, it: Item) -> bool
        ensures room { IsTrue result ↔ (length self.old.items < self.old.depth) }
        ensures queued { OnTrue result (self.new ≡ with_last self.old it) }
        ensures full { OnFalse result (self.new ≡ self.old) }
    {
        self.buffer.try_push_back(it).is_ok()
    }

    /// Takes the oldest item. The answer is None, and nothing has changed, exactly where nothing waits. O(1).
    pub fn take(&mut self) -> Option<Item>
        ensures { MatchOption result
            ((self.old.items ≡ []) × (self.new ≡ self.old))
            (λ item. self.old ≡ with_first item self.new) }
    {
        self.buffer.pop_front()
    }

    /// How many items wait. O(1).
    pub fn len(&self) -> u32
        ensures len { result ≡ length self.now.items }
        ensures within { result ≤ self.now.depth }
    {
        self.buffer.len() as u32
    }

    /// How many items may wait. O(1).
    pub fn depth(&self) -> u32
        ensures { result ≡ self.now.depth }
    {
        self.buffer.capacity() as u32
    }

    /// Gives up all items. O(n).
    pub fn wipe(&mut self)
        ensures { self.new ≡ nothing_waits self.old.depth }
    {
        self.buffer.clear();
    }
}
