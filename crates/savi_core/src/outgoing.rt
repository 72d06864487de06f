//! Frames and probes as they go out: without the tag with which a frame came in, and with that of its VLAN where the port is a
//! trunk (IEEE 802.1Q section 8.1.7).

ghost use Rattle.std.specs.Prelude.{◌≡◌, ◌≤◌, ◌<◌, [], ◌∷◌, ◌++◌, length};
ghost use Rattle.savi_kinds.specs.Ports.{number_of};
ghost use Rattle.eth_frame.specs.Tags.{inner, tag_of};
ghost use Rattle.egress_ring.specs.declared.item.Item.TheVariants as entries;
ghost use Rattle.savi_core.specs.Batches.{item_with};
ghost use Rattle.savi_core.specs.Leaving.{with_tag};
ghost use Rattle.savi_core.specs.Waits.{IsThere, queued_item};

use crate::batch::Batch;
use crate::ports::Ports;
use eth_frame::{Tag, tag};
use hist_store::Hist;
use probe_write::probe;
use savi_kinds::{Act, Addr, Moment, Port};

/// Where the tag of a frame begins: behind two MAC addresses (IEEE 802.1Q section 9.3).
const TAG_AT: usize = 12;

/// Where what a tag stands in front of begins.
const BEHIND_TAG_AT: usize = 16;

/// Adds the frame of the entry with this number to a batch, as it goes out at a port of the plan, with the entry's moment.
/// O(1) beside the copy of its octets.
pub(crate) fn put_frame(into: &mut Batch, hist: &Hist, ports: &Ports, port: Port, n: u64)
    requires room { length into.old < 256 }
    requires there { IsThere hist.now.rows (entries.Frame n) }
    ensures { into.new ≡ into.old ++ queued_item ports.now hist.now.rows (number_of port) (entries.Frame n) ∷ [] }
{
    let entry = hist.entry(n);
    let octets = hist.octets(n);
    match entry.act {
        Act::Frame { port: from, .. } => {
            let had = tag(octets);
            let has = ports.tag_behind(port, from, had);
            put_inner(into, entry.moment, octets, had, has);
        }
        _ => unreachable!(),
    }
}

/// Adds a probe for this address in a VLAN to a batch, as it goes out at a port of the plan, with the moment (ms) at which it
/// was due. O(1).
pub(crate) fn put_probe(
    into: &mut Batch,
    ports: &Ports,
    port: Port,
    due: Moment,
    target: Addr,
    vlan: u16,
)
    requires { length into.old < 256 }
    ensures { into.new ≡ into.old ++ queued_item ports.now [] (number_of port) (entries.Probe due target vlan) ∷ [] }
{
    let octets = probe(ports.plan().mac, target);
    put_plain(into, due, &octets, ports.tag_at(port, Some(vlan)));
}

// Adds a frame that came in with the tag `had`: without it where it names a VLAN, and with that of the VLAN `has` or with
// none.
fn put_inner(into: &mut Batch, moment: Moment, octets: &[u8], had: Tag, has: Option<u16>)
    requires room { length into.old < 256 }
    requires least { 14 ≤ length octets.now }
    requires most { length octets.now ≤ 1518 }
    requires tag { had ≡ tag_of octets.now }
    ensures { into.new ≡ into.old ++ item_with moment (with_tag has (inner octets.now)) ∷ [] }
{
    match had {
        Tag::None | Tag::Bad => put_plain(into, moment, octets, has),
        Tag::Vid(_) => into.put(moment, &octets[..TAG_AT], has, &octets[BEHIND_TAG_AT..]),
    }
}

// Adds a frame as it is, with the tag of this VLAN or with none.
fn put_plain(into: &mut Batch, moment: Moment, octets: &[u8], has: Option<u16>)
    requires room { length into.old < 256 }
    requires least { 14 ≤ length octets.now }
    requires most { length octets.now ≤ 1518 }
    ensures { into.new ≡ into.old ++ item_with moment (with_tag has octets.now) ∷ [] }
{
    match has {
        Some(_) => into.put(moment, &octets[..TAG_AT], has, &octets[TAG_AT..]),
        None => into.put(moment, octets, None, &[]),
    }
}
