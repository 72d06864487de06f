//! Requests as clients ask them, and lifetimes as servers give them.

use crate::plain::port;
use dhcp_states::{Bound, DUID_OCTETS_MOST, Pending, lease_end};
use savi_kinds::{LAST_MOMENT, Rule};
use std::alloc::Global;
use std::process::Abort;
use std::test::Fail;

/// A DUID by link-layer address (RFC 8415 section 11.4).
const DUID: [u8; 10] = [0, 3, 0, 1, 2, 0, 0, 0, 0, 1];

/// A DUID of as many octets as one may have (RFC 8415 section 11.1).
const LONGEST: [u8; DUID_OCTETS_MOST] = [7; DUID_OCTETS_MOST];

#[test]
fn a_port_has_sixteen_open_requests(rt: HostRuntime) -> Result<(), Fail> {
    let mut pending = Pending::make(rt.alloc())?;
    let (p1, p2) = (port(1), port(2));
    assert_eq!(rt; pending.count(p1, 2_000), 0);
    for k in 1..17u32 {
        assert_eq!(rt;
            pending.request(p1, k, &DUID, 2_000 + u64::from(k)),
            Ok(()),
            "request {k}"
        );
    }
    let cases = [
        ("the seventeenth", p1, 17, 2_017, Err(Rule::PendingFull), 16),
        ("another port", p2, 17, 2_017, Ok(()), 1),
        (
            "before the first ends",
            p1,
            18,
            122_000,
            Err(Rule::PendingFull),
            16,
        ),
        ("when the first has ended", p1, 18, 122_001, Ok(()), 16),
        ("a renewal at a full port", p1, 2, 122_001, Ok(()), 16),
        ("when the others have ended", p1, 19, 122_016, Ok(()), 3),
        (
            "a renewed request",
            p2,
            2,
            242_000,
            Err(Rule::DhcpContested),
            0,
        ),
        ("when it has ended", p2, 2, 242_001, Ok(()), 1),
    ];
    for (name, p, tid, t, want, count) in cases {
        assert_eq!(rt; pending.request(p, tid, &DUID, t), want, "{name}");
        assert_eq!(rt; pending.count(p, t), count, "{name}");
    }
    Ok(())
}

// Requests of two ports at 2,050 ms, of which one has the pair of another one.
fn asked(rt: &impl Abort, alloc: Global) -> Result<Pending, Fail> {
    let mut pending = Pending::make(alloc)?;
    let (p1, p2) = (port(1), port(16));
    let requests = [
        ("a first request", p1, 7, &DUID[..], Ok(())),
        (
            "the same pair at another port",
            p2,
            7,
            &DUID,
            Err(Rule::DhcpContested),
        ),
        ("the same DUID with another id", p2, 8, &DUID, Ok(())),
        (
            "a DUID that begins the first one",
            p2,
            7,
            &DUID[..9],
            Ok(()),
        ),
        ("the longest DUID", p2, 7, &LONGEST, Ok(())),
        (
            "a DUID that begins the longest",
            p1,
            7,
            &LONGEST[..129],
            Ok(()),
        ),
    ];
    for (name, p, tid, duid, want) in requests {
        assert_eq!(rt; pending.request(p, tid, duid, 2_050), want, "{name}");
    }
    Ok(pending)
}

#[test]
fn a_reply_is_for_the_port_that_asked(rt: HostRuntime) -> Result<(), Fail> {
    let mut pending = asked(&rt, rt.alloc())?;
    let (p1, p2) = (port(1), port(16));
    let replies = [
        ("an id that nobody has", 9, &DUID[..], 2_100, None),
        ("the first request", 7, &DUID, 2_100, Some(p1)),
        ("the same again", 7, &DUID, 2_100, None),
        ("another id", 8, &DUID, 2_100, Some(p2)),
        (
            "the DUID that begins the first one",
            7,
            &DUID[..9],
            2_100,
            Some(p2),
        ),
        ("the longest DUID", 7, &LONGEST, 122_049, Some(p2)),
        ("when its time has come", 7, &LONGEST[..129], 122_050, None),
    ];
    for (name, tid, duid, t, want) in replies {
        assert_eq!(rt; pending.reply(tid, duid, t), want, "{name}");
    }
    Ok(())
}

#[test]
fn a_binding_ends_120_s_after_its_lease(rt: HostRuntime) -> Result<(), Fail> {
    let leases = [
        ("600 s", 600, 2_100, Some(722_100)),
        ("no lifetime", 0, 2_100, Some(122_100)),
        ("infinity", 0xffff_ffff, 2_100, None),
        (
            "the longest that ends",
            0xffff_fffe,
            LAST_MOMENT,
            Some(4_611_690_313_394_801_904),
        ),
    ];
    for (name, valid, t, want) in leases {
        assert_eq!(rt; lease_end(valid, t), want, "{name}");
    }
    let (p1, p2) = (port(1), port(2));
    let leased = Bound {
        p: p1,
        until: Some(722_100),
    };
    let endless = Bound { p: p1, until: None };
    assert_eq!(rt; leased.aged(722_099), Some(leased));
    assert_eq!(rt; leased.aged(722_100), None);
    assert_eq!(rt; endless.aged(u64::MAX), Some(endless));
    assert_eq!(rt; leased.released(p1), None);
    assert_eq!(rt; leased.released(p2), Some(leased));
    Ok(())
}
