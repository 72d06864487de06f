//! The calls of a timer wheel that are timed.

ghost use Rattle.std.specs.Prelude.{◌≡◌, ◌≤◌, ◌<◌, ◌+◌, ◌*◌, ◌^◌, IfOk, length};
ghost use Rattle.tables_bench.specs.Armed.{armed_all};

use crate::keys::address;
use savi_kinds::{Addr, Moment};
use std::alloc::{AllocError, Global};
use timer_wheel::TimerWheel;

/// The first address is due at this moment (ms): RFC 6620 section 3.2.2, DEFAULT_LT.
pub const LIFE_MS: Moment = 300_000;

/// A wheel at which so many addresses are due, each a ms after the one before it, with room for as many again.
pub fn armed_wheel(alloc: Global, addresses: u32) -> Result<TimerWheel, AllocError>
    requires { addresses ≤ 1024 }
    ensures { IfOk result (λ wheel. (length wheel.arms ≤ addresses) × (wheel.most ≡ 2 * addresses)) }
{
    let mut wheel = TimerWheel::make(alloc, 2 * addresses)?;
    for n in 0..addresses {
        wheel.arm(address(n), LIFE_MS + u64::from(n));
    }
    Ok(wheel)
}

/// These addresses are due anew, the first at a moment (ms), and each a ms after the one before it.
pub fn arm_all(wheel: &mut TimerWheel, asked: &[Addr], first: Moment)
    requires room { length wheel.old.arms + length asked.now ≤ wheel.old.most }
    requires fits { first + length asked.now < 2 ^ 64 }
    ensures arms { (first + length asked.now, wheel.new.arms) ≡ armed_all first wheel.old.arms asked.now }
    ensures most { wheel.new.most ≡ wheel.old.most }
{
    let mut moment = first;
    for a in asked {
        wheel.arm(*a, moment);
        moment += 1;
    }
}
