//! The home of an address.

ghost use Rattle.std.specs.Prelude.{◌≡◌, ◌≤◌, ◌<◌, ◌*◌};
ghost use Rattle.addr_index.specs.Homes.{folded, mixed, home_of};

// The first 64 bits of the fraction of pi, and those of the golden ratio.
const HIGH_MASK: u64 = 0x243f_6a88_85a3_08d3;

const LOW_MASK: u64 = 0x9e37_79b9_7f4a_7c15;

// The first multiplier of SplitMix64's last step (David Stafford's variant 13).
const MULTIPLIER: u64 = 0xbf58_476d_1ce4_e5b9;

// The halves of the product of two words, laid over each other.
#[inline(always)]
fn folded_product(a: u64, b: u64) -> u64
    ensures { result ≡ folded (a * b) }
{
    let product = u128::from(a) * u128::from(b);
    (product % (1 << 64)) as u64 ^ (product >> 64) as u64
}

// 32 bits that depend on all 128 of an address. The low bits of the folded product of both halves rise almost evenly where
// one half is counted up, which can put many homes side by side. The second product scatters them.
#[inline(always)]
fn mix(address: u128) -> u64
    ensures { result ≡ mixed address }
{
    let high = (address >> 64) as u64;
    let low = (address % (1 << 64)) as u64;
    folded_product(high ^ HIGH_MASK, low ^ LOW_MASK).wrapping_mul(MULTIPLIER) >> 32
}

// The place at which a search for an address begins, among so many, a power of two. All 128 bits count, so that addresses
// that differ in few bits, such as counted ones, have homes that lie apart.
#[inline(always)]
pub(crate) fn home(address: u128, places: usize) -> usize
    requires { 1 ≤ places }
    ensures home { result ≡ home_of address places }
    ensures within { result < places }
{
    (mix(address) as usize) & (places - 1)
}
