//! The rings through which the rows of a bucket are linked.

ghost use Rattle.std.specs.Prelude.{◌≡◌, ◌≤◌, ◌<◌, ◌^◌, ℕ, IfOk, length, slice_index, slice_set};

use std::alloc::{AllocError, Global};

// The two neighbors of each node, by its number.
#[derive(Drop)]
pub(crate) struct Rings {
    pub(crate) later: Vec<u32>,
    pub(crate) earlier: Vec<u32>,
}

// A node and the one that follows it, between which another one is to come.
#[derive(Clone, Copy)]
pub(crate) struct Gap {
    pub(crate) before: u32,
    pub(crate) behind: u32,
}

impl Rings {
    // So many nodes, each its own neighbor.
    pub(crate) fn make(alloc: Global, nodes: u32) -> Result<Rings, AllocError>
        ensures later_nodes { IfOk result (λ rings. length rings.later.items ≡ nodes) }
        ensures earlier_nodes { IfOk result (λ rings. length rings.earlier.items ≡ nodes) }
        ensures later { IfOk result (λ rings. (node : ℕ) → node < nodes → slice_index rings.later.items node ≡ node) }
        ensures earlier { IfOk result (λ rings. (node : ℕ) → node < nodes → slice_index rings.earlier.items node ≡ node) }
    {
        Ok(Rings {
            later: numbers(alloc, nodes)?,
            earlier: numbers(alloc, nodes)?,
        })
    }

    // Puts a node in between two neighbors.
    #[inline(always)]
    pub(crate) fn link(&mut self, node: u32, gap: Gap)
        requires node { (node < length self.old.later.items) × (node < length self.old.earlier.items) }
        requires before { gap.before < length self.old.later.items }
        requires behind { gap.behind < length self.old.earlier.items }
        ensures later { self.new.later.items ≡ slice_set (slice_set self.old.later.items node gap.behind) gap.before node }
        ensures earlier { self.new.earlier.items ≡ slice_set (slice_set self.old.earlier.items gap.behind node) node gap.before }
    {
        self.later[node as usize] = gap.behind;
        self.later[gap.before as usize] = node;
        self.earlier[gap.behind as usize] = node;
        self.earlier[node as usize] = gap.before;
    }

    // Takes a node out.
    #[inline(always)]
    pub(crate) fn unlink(&mut self, node: u32)
        requires node { (node < length self.old.later.items) × (node < length self.old.earlier.items) }
        requires before { slice_index self.old.earlier.items node < length self.old.later.items }
        requires after { slice_index self.old.later.items node < length self.old.earlier.items }
        ensures later { self.new.later.items ≡ slice_set self.old.later.items (slice_index self.old.earlier.items node) (slice_index self.old.later.items node) }
        ensures earlier { self.new.earlier.items ≡ slice_set self.old.earlier.items (slice_index self.old.later.items node) (slice_index self.old.earlier.items node) }
    {
        let before = self.earlier[node as usize];
        let after = self.later[node as usize];
        self.later[before as usize] = after;
        self.earlier[after as usize] = before;
    }
}

// The numbers from 0 on, so many.
fn numbers(alloc: Global, count: u32) -> Result<Vec<u32>, AllocError>
    ensures len { IfOk result (λ numbers. length numbers.items ≡ count) }
    ensures each { IfOk result (λ numbers. (k : ℕ) → k < count → slice_index numbers.items k ≡ k) }
{
    let mut numbers = Vec::with_capacity(alloc, count as usize)?;
    for number in 0..count {
        numbers.push(number)?;
    }
    Ok(numbers)
}
