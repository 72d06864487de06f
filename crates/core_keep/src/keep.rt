//! The core as a value under the lock.

ghost use Rattle.std.specs.Prelude.{◌≡◌, IfOk};
ghost use Rattle.savi_kinds.specs.ValidPlan.{IsValidPlan};
ghost use Rattle.savi_core.specs.Machines.{started};

use savi_core::Core;
use savi_kinds::Plan;
use std::alloc::{AllocError, Global};
use table_lock::Kept;

/// The core behind one pointer, which is all that a turn at the lock moves, however long the tables and the history are.
#[derive(Drop)]
pub struct KeptCore {
    pub core: Box<Core>,
}

impl KeptCore {
    /// The switch of this plan at its start. It takes all its memory here.
    pub fn make(alloc: Global, plan: Plan) -> Result<KeptCore, AllocError>
        requires { IsValidPlan plan }
        ensures { IfOk result (λ kept. kept.core.value ≡ started plan) }
    {
        let core = Core::make(alloc, plan)?;
        Ok(KeptCore {
            core: Box::new(alloc, core)?,
        })
    }

    /// The core, given back. O(1).
    pub fn into_core(self) -> Core
        ensures { result ≡ self.core.value }
    {
        let KeptCore { core } = self;
        Box::into_inner(core)
    }
}

impl Kept for KeptCore {
    ghost use Rattle.core_keep.specs.Pasts.{coded};
    ghost use Rattle.core_keep.specs.BaseCodes.{fixed_code};

    ghost history = { λ kept. coded kept.core.value.past };

    ghost fixed = { λ kept. fixed_code kept.core.value.plan kept.core.value.checkpoint };

    fn entries(&self) -> u64 {
        self.core.history().len()
    }
}
