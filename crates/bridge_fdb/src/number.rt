//! MAC addresses as numbers, and the search among such numbers.

ghost use Rattle.std.specs.Prelude.{◌≡◌, ◌≤◌, ◌<◌, length};
ghost use Rattle.std.specs.List.{AllWithin};
ghost use Rattle.std.specs.List.Sorted.{IsNonDecreasing};
ghost use Rattle.bridge_fdb.specs.Stations.{mac_number};

use crate::station::ALL_STATIONS_MOST;
use savi_kinds::Mac;

// The MAC address as a number, the first octet the highest.
#[tactic(auto, unfolding(crate::specs::Stations::mac_number))]
pub(crate) fn number(mac: Mac) -> u64
    ensures { result ≡ mac_number mac }
{
    let [first, second, third, fourth, fifth, sixth] = mac.0;
    // In the two parts in which six octets are copied: a load that spans two stores waits until both have reached memory.
    let high = u32::from_be_bytes([first, second, third, fourth]);
    let low = u16::from_be_bytes([fifth, sixth]);
    u64::from(high) * 0x1_0000 + u64::from(low)
}

// How many of these numbers, which are in order, are lower than this one. O(log n). A branch on a number would be
// mispredicted every other time. So the number of steps is the same for each length: then the compiler unrolls them, and
// each comparison becomes a conditional move. Inlined into a caller's loop it would become a branch again.
#[inline(never)]
pub(crate) fn count_lower(numbers: &[u64], wanted: u64) -> usize
    requires order { IsNonDecreasing numbers.now }
    requires most { length numbers.now ≤ 4096 }
    ensures bound { result ≤ length numbers.now }
    ensures lower { AllWithin (λ n. n < wanted) numbers.now 0 result }
    ensures others { AllWithin (λ n. wanted ≤ n) numbers.now result (length numbers.now) }
{
    let mut low = 0;
    let mut size = ALL_STATIONS_MOST;
    while size > 1 {
        let half = size / 2;
        let middle = low + half;
        if middle < numbers.len() {
            low = if numbers[middle] < wanted {
                middle
            } else {
                low
            };
        }
        size -= half;
    }
    if low < numbers.len() && numbers[low] < wanted {
        low + 1
    } else {
        low
    }
}
