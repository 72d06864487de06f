//! Replies on control.

use crate::plain::{TIMES, port};
use control_replies::{Counts, PortRow, Refusal, Reply};
use dhcp_states::Bound;
use fcfs_states::Fcfs;
use mix_rules::AddrState;
use savi_kinds::{Addr, DEFAULT_VLAN, Mac, Port, Role};
use std::alloc::AllocError;
use std::process::Abort;

// fe80::11.
const LOCAL_11: Addr = Addr(0xfe80_0000_0000_0000_0000_0000_0000_0011);

// fe80::22.
const LOCAL_22: Addr = Addr(0xfe80_0000_0000_0000_0000_0000_0000_0022);

// 2001:db8:1::11, of a prefix by first come, first served.
const GLOBAL_11: Addr = Addr(0x2001_0db8_0001_0000_0000_0000_0000_0011);

// 2001:db8:2::101, of a prefix by DHCPv6.
const LEASED: Addr = Addr(0x2001_0db8_0002_0000_0000_0000_0000_0101);

// 2001:db8:3::33, of a prefix by both.
const MIXED_33: Addr = Addr(0x2001_0db8_0003_0000_0000_0000_0000_0033);

// The MAC address of a station.
const STATION: Mac = Mac([0x02, 0, 0, 0, 0, 0x11]);

// When a station ends that was seen at 2^62 ms.
const LAST_END: u64 = (1 << 62) + 300_000;

fn first_come(fcfs: Fcfs) -> AddrState {
    AddrState {
        fcfs,
        ..AddrState::none()
    }
}

fn valid(p: Port, until: u64) -> AddrState {
    first_come(Fcfs::Valid { p, until })
}

fn bound(p: Port, until: Option<u64>, fcfs: Fcfs) -> AddrState {
    AddrState {
        fcfs,
        dhcp: Some(Bound { p, until }),
        ..AddrState::none()
    }
}

// What `show bindings` prints of three addresses of VLAN 1; one without a state has no line.
fn expect_bindings(rt: &impl Abort, reply: &mut Reply, rows: [(Addr, AddrState); 3], want: &str) {
    let [first, second, third] = rows;
    reply.clear();
    reply.put_binding(&TIMES, DEFAULT_VLAN, first.0, &first.1);
    reply.put_binding(&TIMES, DEFAULT_VLAN, second.0, &second.1);
    reply.put_binding(&TIMES, DEFAULT_VLAN, third.0, &third.1);
    reply.put_end();
    assert_eq!(rt; reply.octets(), want.as_bytes());
}

#[test]
fn bindings_are_shown(rt: HostRuntime) -> Result<(), AllocError> {
    let mut reply = Reply::make(rt.alloc())?;
    let one = port(1);
    let none = (LOCAL_11, AddrState::none());
    let own = (LOCAL_11, valid(one, 302_000));
    let beside = Fcfs::Valid {
        p: one,
        until: 301_500,
    };
    let endless = bound(one, None, Fcfs::NoBind);
    let cases: [([(Addr, AddrState); 3], &str); 4] = [
        ([none, none, none], "end\n"),
        (
            [
                (GLOBAL_11, valid(one, 303_000)),
                (LOCAL_11, valid(one, 302_100)),
                none,
            ],
            "2001:db8:1::11 1 valid - 303000\nfe80::11 1 valid - 302100\nend\n",
        ),
        (
            [(LEASED, endless), own, (LOCAL_22, valid(port(5), 302_100))],
            "2001:db8:2::101 1 bound - -\nfe80::11 1 valid - 302000\nfe80::22 5 valid - 302100\nend\n",
        ),
        (
            [(MIXED_33, bound(one, Some(722_100), beside)), own, none],
            "2001:db8:3::33 1 bound - 722100\n2001:db8:3::33 1 valid - 301500\nfe80::11 1 valid - 302000\nend\n",
        ),
    ];
    for (rows, want) in cases {
        expect_bindings(&rt, &mut reply, rows, want);
    }
    Ok(())
}

#[test]
fn each_state_has_its_word(rt: HostRuntime) -> Result<(), AllocError> {
    let mut reply = Reply::make(rt.alloc())?;
    let (one, two, last) = (port(1), port(2), port(16));
    let none = (LOCAL_11, AddrState::none());
    let tentative = first_come(Fcfs::Tentative {
        p: one,
        since: 1_000,
        two: true,
    });
    let claimed = first_come(Fcfs::TestVp {
        p: one,
        q: two,
        since: 2_000,
        two: true,
    });
    let tested = first_come(Fcfs::TestLt {
        p: last,
        since: 302_500,
        two: false,
    });
    let fixed = AddrState {
        fixed: Some(one),
        ..AddrState::none()
    };
    let cases: [(AddrState, &str); 4] = [
        (tentative, "fe80::11 1 tentative - 1500\nend\n"),
        (claimed, "fe80::11 1 testing-vp 2 2500\nend\n"),
        (tested, "fe80::11 16 testing-lt - 303000\nend\n"),
        (fixed, "fe80::11 1 static - -\nend\n"),
    ];
    for (state, want) in cases {
        expect_bindings(&rt, &mut reply, [(LOCAL_11, state), none, none], want);
    }
    Ok(())
}

// In VLAN 1 a key is an address alone; in each other one the VLAN's number stands behind it.
#[test]
fn keys_name_their_vlan(rt: HostRuntime) -> Result<(), AllocError> {
    let mut reply = Reply::make(rt.alloc())?;
    reply.put_binding(&TIMES, 10, LOCAL_11, &valid(port(1), 301_500));
    reply.put_binding(&TIMES, 20, LOCAL_11, &valid(port(2), 301_600));
    reply.put_end();
    let want: &[u8] = b"fe80::11@10 1 valid - 301500\nfe80::11@20 2 valid - 301600\nend\n";
    assert_eq!(rt; reply.octets(), want);
    reply.clear();
    let beside = bound(port(16), Some(722_100), Fcfs::NoBind);
    reply.put_binding(&TIMES, 4_094, MIXED_33, &beside);
    reply.put_station(DEFAULT_VLAN, STATION, port(1), 302_600);
    reply.put_station(2, STATION, port(2), 302_600);
    reply.put_station(4_094, STATION, port(16), LAST_END);
    reply.put_end();
    let want: &[u8] =
        b"2001:db8:3::33@4094 16 bound - 722100\n02:00:00:00:00:11 1 302600\n02:00:00:00:00:11@2 2 302600\n02:00:00:00:00:11@4094 16 4611686018427687904\nend\n";
    assert_eq!(rt; reply.octets(), want);
    Ok(())
}

#[test]
fn refusals_are_lines(rt: HostRuntime) -> Result<(), AllocError> {
    let mut reply = Reply::make(rt.alloc())?;
    let cases = [
        (Refusal::UnknownCommand, "error: unknown command\n"),
        (Refusal::BadAddress, "error: bad address\n"),
        (Refusal::BadPort, "error: bad port\n"),
        (Refusal::NoSuchPort, "error: no such port\n"),
        (Refusal::TrustedPort, "error: trusted port\n"),
        (Refusal::OffLink, "error: off-link\n"),
        (Refusal::PortFull, "error: port full\n"),
        (Refusal::NoBinding, "error: no binding\n"),
    ];
    for (refusal, want) in cases {
        reply.clear();
        reply.put_refusal(refusal);
        assert_eq!(rt; reply.octets(), want.as_bytes());
    }
    reply.clear();
    reply.put_ok();
    assert_eq!(rt; reply.octets(), b"ok\n".as_slice());
    Ok(())
}

#[test]
fn ports_and_stations_are_shown(rt: HostRuntime) -> Result<(), AllocError> {
    let mut reply = Reply::make(rt.alloc())?;
    let host = PortRow {
        number: port(1),
        role: Role::Host,
        is_shut: false,
        held: 0,
        pending: 0,
        queued: 0,
    };
    let server = PortRow {
        number: port(16),
        role: Role::Server,
        is_shut: true,
        held: 64,
        pending: 3,
        queued: 256,
    };
    reply.put_port(&host);
    reply.put_port(&server);
    reply.put_station(DEFAULT_VLAN, STATION, port(1), 302_600);
    reply.put_end();
    let want: &[u8] =
        b"1 host up 0 0 0\n16 server down 64 3 256\n02:00:00:00:00:11 1 302600\nend\n";
    assert_eq!(rt; reply.octets(), want);
    Ok(())
}

#[test]
fn counters_are_shown(rt: HostRuntime) -> Result<(), AllocError> {
    let mut reply = Reply::make(rt.alloc())?;
    let counts = Counts {
        by_rule: [
            1, 2, 3, 4, 5, 6, 7, 8, 9, 10, 11, 12, 13, 14, 15, 16, 17, 18, 19, 20, 21, 22, 23,
        ],
        pass: 24,
        cut: 25,
        probes: 26,
        lost: u64::MAX,
    };
    reply.put_counters(&counts);
    let want: &[u8] =
        b"PortDown 1\nMalformed 2\nReservedGroup 3\nSourceMac 4\nTagged 5\nBadIpv6 6\nHiddenUpper 7\nUnknownNextHeader 8\nRouterAdvert 9\nFragmentedNd 10\nBadNd 11\nRedirect 12\nDhcpServer 13\nUnspecifiedSource 14\nOffLink 15\nNotAssigned 16\nPortFull 17\nWrongPort 18\nUnverified 19\nContested 20\nNaTarget 21\nPendingFull 22\nDhcpContested 23\nPass 24\nCut 25\nProbes 26\nLost 18446744073709551615\nend\n";
    assert_eq!(rt; reply.octets(), want);
    Ok(())
}
