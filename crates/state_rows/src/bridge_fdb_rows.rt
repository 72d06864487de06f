//! Stations as frames come in.

ghost use Rattle.std.specs.Prelude.{◌≡◌, IfOk, map};
ghost use Rattle.bridge_fdb.specs.Stations.{live_at, station_told};

use crate::plain::port;
use bridge_fdb::Fdb;
use savi_kinds::{Mac, Moment, Port};
use std::alloc::{AllocError, Global};
use std::test::Fail;

fn mac(n: u16) -> Mac {
    let [high, low] = n.to_be_bytes();
    Mac([2, 0, 0, 0, high, low])
}

#[test]
fn stations_are_learned_and_end(rt: HostRuntime) -> Result<(), Fail> {
    let mut fdb = Fdb::make(rt.alloc())?;
    let (p1, p2) = (port(1), port(2));
    for n in 0..255u16 {
        fdb.learn(mac(n), p1, 1_000 + u64::from(n));
    }
    let calls = [
        ("the 256th", 255, p1, 1_255, 255, Some(p1)),
        ("the 257th", 256, p1, 1_256, 256, None),
        ("at another port", 256, p2, 1_300, 256, Some(p2)),
        ("a full port takes none", 256, p1, 1_301, 256, Some(p2)),
        ("one that moves", 7, p2, 1_302, 7, Some(p2)),
        ("in its stead", 256, p1, 1_303, 256, Some(p1)),
        ("none has ended", 300, p1, 300_999, 0, Some(p1)),
        ("the first as it ends", 300, p1, 301_000, 0, None),
        ("in its place", 301, p1, 301_000, 300, Some(p1)),
        ("no second one", 302, p1, 301_000, 302, None),
    ];
    for (name, seen, p, t, asked, wanted) in calls {
        fdb.learn(mac(seen), p, t);
        assert_eq!(rt; fdb.place(mac(asked), t), wanted, "{name}");
    }
    let rows = [
        (0, Some((mac(1), p1, 301_001))),
        (6, Some((mac(7), p2, 301_302))),
        (255, Some((mac(256), p1, 301_303))),
        (256, Some((mac(300), p1, 601_000))),
        (257, None),
    ];
    for (i, wanted) in rows {
        assert_eq!(rt; fdb.row(i, 301_000), wanted, "row {i}");
    }
    Ok(())
}

// What is told of all stations that are live at t, in order.
fn rows(alloc: Global, fdb: &Fdb, t: Moment) -> Result<Vec<(Mac, Port, Moment)>, AllocError>
    ensures { IfOk result (λ rows. rows.items ≡ map station_told (live_at t fdb.now)) }
{
    let mut rows = Vec::new(alloc);
    let mut from = 0;
    while let Some(next) = fdb.next_row(from, t) {
        rows.push(next.row)?;
        from = next.behind;
    }
    Ok(rows)
}

#[test]
fn live_stations_are_told_in_order(rt: HostRuntime) -> Result<(), Fail> {
    let mut fdb = Fdb::make(rt.alloc())?;
    let p1 = port(1);
    for (n, t) in [(5, 1_000), (3, 2_000), (9, 1_500), (1, 1_001)] {
        fdb.learn(mac(n), p1, t);
    }
    let told = [(mac(3), p1, 302_000), (mac(9), p1, 301_500)];
    assert_eq!(rt;
        rows(rt.alloc(), &fdb, 301_001)?.as_slice(),
        told.as_slice()
    );
    Ok(())
}
