//! The search for a place in the order of addresses.

ghost use Rattle.std.specs.Prelude.{◌≡◌};
ghost use Rattle.slab.specs.Slab.{get};
ghost use Rattle.savi_kinds.specs.Orders.{IsRising};
ghost use Rattle.savi_access.specs.Rows.{address_of};
ghost use Rattle.bind_table.specs.Places.{count_below};
ghost use Rattle.bind_table.specs.Kept.{HaveRows, rows_under};

use crate::stored::row_under;
use savi_access::Row;
use savi_kinds::Addr;
use slab::Slab;

// How many of the rows under these keys have addresses lower than this one. O(log n).
#[inline(never)]
pub(crate) fn count_lower(rows: &Slab<Row>, keys: &[u32], a: Addr) -> usize
    requires told { HaveRows (get rows.now) keys.now (rows_under rows.now keys.now) }
    requires rising { IsRising address_of (rows_under rows.now keys.now) }
    ensures { result ≡ count_below a.0 (rows_under rows.now keys.now) }
{
    let mut low = 0;
    let mut high = keys.len();
    while low < high {
        let middle = low + (high - low) / 2;
        if row_under(rows, keys[middle]).address.0 < a.0 {
            low = middle + 1;
        } else {
            high = middle;
        }
    }
    low
}
