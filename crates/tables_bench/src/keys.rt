//! Addresses that hosts make up, and an order in which they are asked for.

ghost use Rattle.std.specs.Prelude.{◌≡◌, ◌≤◌, IfOk, vec_len};

use savi_kinds::Addr;
use std::alloc::{AllocError, Global};

/// The prefix of all addresses, 2001:db8::/64 (RFC 3849).
const PREFIX: u128 = 0x2001_0db8 << 96;

/// The n-th number of a row in no order (the finalizer of MurmurHash3).
fn stirred(n: u64) -> u64 {
    let first = (n ^ (n >> 33)).wrapping_mul(0xff51_afd7_ed55_8ccd);
    let second = (first ^ (first >> 33)).wrapping_mul(0xc4ce_b9fe_1a85_ec53);
    second ^ (second >> 33)
}

/// The n-th address.
pub fn address(n: u32) -> Addr {
    Addr(PREFIX + u128::from(stirred(u64::from(n))))
}

/// So many times one of the first so many addresses, in no order.
pub fn asked_addresses(alloc: Global, addresses: u32) -> Result<Vec<Addr>, AllocError>
    requires { 1 ≤ addresses }
    ensures { IfOk result (λ asked. vec_len asked ≡ addresses) }
{
    let mut asked = Vec::new(alloc);
    for n in 0..addresses {
        let place = stirred(!u64::from(n)) % u64::from(addresses);
        asked.push(address(place as u32))?;
    }
    Ok(asked)
}
