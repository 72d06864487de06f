//! A queue of one item and one of 256.

use egress_ring::{EgressRing, Item};
use savi_kinds::Addr;
use std::test::Fail;

#[test]
fn a_queue_of_one_holds_one(rt: HostRuntime) -> Result<(), Fail> {
    let mut ring = EgressRing::make(rt.alloc(), 1)?;
    let probe = probe_in(4_094);
    assert_eq!(rt; ring.take(), None);
    assert_eq!(rt; ring.queue(probe), true);
    assert_eq!(rt; ring.queue(Item::Frame(1)), false);
    assert_eq!(rt; ring.len(), 1);
    assert_eq!(rt; ring.take(), Some(probe));
    assert_eq!(rt; ring.take(), None);
    Ok(())
}

#[test]
fn probes_of_two_vlans_for_one_target_wait_apart(rt: HostRuntime) -> Result<(), Fail> {
    let mut ring = EgressRing::make(rt.alloc(), 2)?;
    assert_eq!(rt; ring.queue(probe_in(10)), true);
    assert_eq!(rt; ring.queue(probe_in(20)), true);
    assert_eq!(rt; ring.take(), Some(probe_in(10)));
    assert_eq!(rt; ring.take(), Some(probe_in(20)));
    Ok(())
}

// The probe of address 1 in a VLAN.
fn probe_in(vid: u16) -> Item {
    Item::Probe {
        due: 7,
        target: Addr(1),
        vid,
    }
}

#[test]
fn a_queue_of_256_gives_its_items_in_order(rt: HostRuntime) -> Result<(), Fail> {
    let mut ring = EgressRing::make(rt.alloc(), 256)?;
    for n in 0..256u64 {
        assert_eq!(rt; ring.queue(Item::Frame(n)), true);
    }
    assert_eq!(rt; ring.queue(Item::Frame(256)), false);
    for n in 0..256u64 {
        assert_eq!(rt; ring.take(), Some(Item::Frame(n)));
    }
    assert_eq!(rt; ring.queue(Item::Frame(9)), true);
    ring.wipe();
    assert_eq!(rt; ring.len(), 0);
    Ok(())
}
