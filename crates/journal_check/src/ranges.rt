//! Prefixes as ranges of addresses (RFC 4291 section 2.3).
ghost use Rattle.std.specs.Prelude.{◌≡◌, ◌+◌, ◌-◌, ◌%◌, ◌^◌, ◌≤◌, ◌↔◌, IsTrue};
ghost use Rattle.savi_kinds.specs.Prefixes.{AreApart, IsPrefix, LiesIn, first_of, past_of};
ghost use Rattle.savi_kinds.specs.ValidPlan.{IsPlanPrefix};
ghost use Rattle.savi_history.specs.Journals.{IsAddress};

use savi_kinds::{Addr, Prefix};

// Whether a plan may name the prefix.
pub fn is_plan_prefix(prefix: Prefix) -> bool
    requires { IsPrefix prefix }
    ensures plan_prefix { IsTrue result ↔ IsPlanPrefix prefix }
    ensures address { IsAddress (first_of prefix) }
{
    are_apart(prefix, Prefix::LINK_LOCAL)
        && are_apart(prefix, Prefix::MULTICAST)
        && !lies_in(Addr::UNSPECIFIED, prefix)
        && !lies_in(Addr::LOOPBACK, prefix)
}

// Whether no address lies in both.
fn are_apart(one: Prefix, other: Prefix) -> bool
    requires one { IsPrefix one }
    requires other { IsPrefix other }
    ensures { IsTrue result ↔ AreApart one other }
{
    last_of(one) < other.net.0 || last_of(other) < one.net.0
}

fn lies_in(a: Addr, prefix: Prefix) -> bool
    requires { IsPrefix prefix }
    ensures { IsTrue result ↔ LiesIn a.0 prefix }
{
    prefix.net.0 <= a.0 && a.0 <= last_of(prefix)
}

// The last address of the prefix.
fn last_of(prefix: Prefix) -> u128
    requires { IsPrefix prefix }
    ensures { result + 1 ≡ past_of prefix }
{
    last_behind(prefix.net.0, prefix.len)
}

// The last address with the first `len` bits of `net`, which has no other bit set.
fn last_behind(net: u128, len: u8) -> u128
    requires short { 1 ≤ len }
    requires long { len ≤ 128 }
    requires net { net % 2 ^ (128 - len) ≡ 0 }
    ensures { result + 1 ≡ net + 2 ^ (128 - len) }
{
    let size: u128 = 1 << (128 - len);
    net + (size - 1)
}
