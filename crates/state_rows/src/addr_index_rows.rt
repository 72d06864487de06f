//! An index in use.

ghost use Rattle.std.specs.Prelude.{◌≡◌, length};
ghost use Rattle.addr_index.specs.Homes.{home_of};

use addr_index::AddrIndex;
use savi_kinds::Addr;
use std::alloc::AllocError;

// An index of at most four addresses has eight places.
const MOST: u32 = 4;

// Three addresses whose home is the last place, and one whose home is the first.
fn chosen() -> (Addr, Addr, Addr, Addr)
    ensures a { home_of result.0.0 8 ≡ 7 }
    ensures b { home_of result.1.0 8 ≡ 7 }
    ensures c { home_of result.2.0 8 ≡ 7 }
    ensures d { home_of result.3.0 8 ≡ 0 }
{
    (Addr(10), Addr(30), Addr(32), Addr(2))
}

// Takes an address in under a key, or gives it up where the key is 0. So many addresses were held before, and are now.
fn set(index: &mut AddrIndex, held: u32, a: Addr, key: u32) -> u32
    requires held { length index.old.entries ≡ held }
    requires most { index.old.most ≡ 4 }
    ensures held { length index.new.entries ≡ result }
    ensures most { index.new.most ≡ 4 }
{
    if index.get(a).is_some() {
        if key > 0 {
            return held;
        }
        index.remove(a);
        return held - 1;
    }
    if key == 0 || held >= MOST {
        return held;
    }
    index.insert(a, key);
    held + 1
}

// The key of an address, or 0.
fn key(index: &AddrIndex, a: Addr) -> u32 {
    index.get(a).unwrap_or(0)
}

#[test]
fn entries_move_back_round_the_last_place(rt: HostRuntime) -> Result<(), AllocError> {
    let (a, b, c, d) = chosen();
    let mut index = AddrIndex::make(rt.alloc(), MOST)?;
    let steps = [
        ("into the last place", a, 1, [1, 0, 0, 0]),
        ("into the first", b, 2, [1, 2, 0, 0]),
        ("into the second", c, 3, [1, 2, 3, 0]),
        ("from its home to the third", d, 4, [1, 2, 3, 4]),
        ("the others move back", a, 0, [0, 2, 3, 4]),
        ("behind them", a, 5, [5, 2, 3, 4]),
        ("those behind it move back", c, 0, [5, 2, 0, 4]),
        ("one that isn't there", c, 0, [5, 2, 0, 4]),
        ("at its home", d, 0, [5, 2, 0, 0]),
    ];
    let mut held = 0;
    for (name, address, given, wanted) in steps {
        held = set(&mut index, held, address, given);
        let keys = [
            key(&index, a),
            key(&index, b),
            key(&index, c),
            key(&index, d),
        ];
        assert_eq!(rt; keys, wanted, "{name}");
    }
    Ok(())
}
