ghost use Rattle.std.specs.Prelude.{◌≡◌, ◌≢◌, ◌≤◌, ℕ, List, IfSome, IfNone, Contains};
ghost use Rattle.savi_ends.specs.Octets.{Takes};
ghost use Rattle.savi_ends.specs.Faults.{Rose};
ghost use Rattle.pcap_io.specs.Kinds.{IsHeader};
ghost use Rattle.pcap_io.specs.ReaderStates.{kinds_of};
ghost use Rattle.pcap_io.specs.Pieces.{HeaderIs};

use crate::kind::{ByteOrder, HEADER_OCTETS, HeaderKind, TimeUnit};
use savi_ends::{Filled, Source, fill};

/// The classic headers: stamps in microseconds or nanoseconds, in either byte order.
const CLASSIC_KINDS: [HeaderKind; 4] = [
    HeaderKind {
        order: ByteOrder::Little,
        unit: TimeUnit::Microseconds,
    },
    HeaderKind {
        order: ByteOrder::Big,
        unit: TimeUnit::Microseconds,
    },
    HeaderKind {
        order: ByteOrder::Little,
        unit: TimeUnit::Nanoseconds,
    },
    HeaderKind {
        order: ByteOrder::Big,
        unit: TimeUnit::Nanoseconds,
    },
];

// What stands at the front of an input.
pub(crate) enum Header {
    // A header of this kind.
    Of(HeaderKind),
    // No header of a kind that is accepted.
    Malformed,
    // A read failed.
    Failed,
}

// Reads the header of a capture: of any classic kind, or only of this one.
pub(crate) fn read_header<S: Source>(source: &mut S, only: Option<HeaderKind>) -> Header
    ensures later { S.faults source.old ≤ S.faults source.new }
    ensures cause { result ≡ Header.Failed → Rose (S.faults source.old) (S.faults source.new) }
    ensures still { result ≢ Header.Failed → S.faults source.new ≡ S.faults source.old }
    ensures octets { (gave : List ℕ) × Takes (S.left source.old) (S.left source.new) gave × HeaderIs (kinds_of only) result gave (S.left source.new) }
{
    let mut header = [0; HEADER_OCTETS];
    match fill(source, &mut header) {
        Filled::Whole => {}
        Filled::Short(_) => return Header::Malformed,
        Filled::Failed => return Header::Failed,
    }
    match accepted_kind(only, &header) {
        Some(kind) => Header::Of(kind),
        None => Header::Malformed,
    }
}

// The kind of this header, where it is accepted.
fn accepted_kind(only: Option<HeaderKind>, header: &[u8; HEADER_OCTETS]) -> Option<HeaderKind>
    ensures some { IfSome result (λ kind. Contains (kinds_of only) kind × IsHeader kind header.now) }
    ensures none { IfNone result ((kind : HeaderKind) → Contains (kinds_of only) kind → ¬ IsHeader kind header.now) }
{
    match only {
        Some(kind) => kind_among(&[kind], header),
        None => kind_among(&CLASSIC_KINDS, header),
    }
}

// The first of these kinds whose header this is.
fn kind_among(kinds: &[HeaderKind], header: &[u8; HEADER_OCTETS]) -> Option<HeaderKind>
    ensures some { IfSome result (λ kind. Contains kinds.now kind × IsHeader kind header.now) }
    ensures none { IfNone result ((kind : HeaderKind) → Contains kinds.now kind → ¬ IsHeader kind header.now) }
{
    for kind in kinds {
        if kind.is_header(header) {
            return Some(*kind);
        }
    }
    None
}
