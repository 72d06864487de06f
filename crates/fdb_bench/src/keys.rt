//! MAC addresses in no order, and ports.

ghost use Rattle.std.specs.Prelude.{◌≡◌, ◌+◌, ◌%◌};
ghost use Rattle.savi_kinds.specs.Ports.{number_of};

use savi_kinds::{Mac, PORTS_MOST, Port};

/// The n-th number of a row in no order (the finalizer of MurmurHash3).
pub fn stirred(n: u64) -> u64 {
    let first = (n ^ (n >> 33)).wrapping_mul(0xff51_afd7_ed55_8ccd);
    let second = (first ^ (first >> 33)).wrapping_mul(0xc4ce_b9fe_1a85_ec53);
    second ^ (second >> 33)
}

/// The n-th MAC address, without the group bit.
pub fn mac(n: u64) -> Mac {
    let [first, second, third, fourth, fifth, sixth, _, _] = stirred(n).to_be_bytes();
    Mac([first & 0xfe, second, third, fourth, fifth, sixth])
}

/// The ports in turn.
pub fn port(n: u64) -> Port
    ensures { number_of result ≡ n % 16 + 1 }
{
    match Port::new((n % PORTS_MOST as u64) as u8 + 1) {
        Some(port) => port,
        None => unreachable!(),
    }
}
