//! One line of the state of an address.

ghost use Rattle.std.specs.Prelude.{◌≡◌, [], ◌∷◌, ◌≤◌, length, codes};
ghost use Rattle.arrayvec.specs.ArrayVec.{array_vec_len};
ghost use Rattle.hist_store.specs.TextOfLines.{joined};
ghost use Rattle.hist_store.specs.PortTexts.{port_text};
ghost use Rattle.checkpoint.specs.StateLines.{fcfs_line, text_in_vlan};
ghost use Rattle.checkpoint.specs.Parts.{part_line};
ghost use Rattle.savi_kinds.specs.AddrText.{addr_text};

use crate::fields::{put_key, put_two, put_until};
use dhcp_states::Bound as Binding;
use fcfs_states::Fcfs;
use hist_store::{JournalLine, put_number, put_octets, put_port_field, put_word};
use savi_kinds::{Addr, Port, put_addr};

// By which way a port came to have an address.
#[derive(Clone, Copy, Debug)]
pub(crate) enum Way {
    // The operator has fixed it there.
    Fixed(Port),
    // DHCPv6 has bound it there.
    Bound(Binding),
    // The host there has claimed it.
    Claimed(Fcfs),
}

// A part of the state of an address, which has a line of its own.
#[derive(Clone, Copy, Debug)]
pub(crate) struct Part {
    pub(crate) vlan: u16,
    pub(crate) address: Addr,
    pub(crate) way: Way,
}

impl Part {
    // Writes the line into an empty buffer.
    pub(crate) fn put(&self, into: &mut JournalLine)
        requires { into.old.items ≡ [] }
        ensures { into.new.items ≡ joined (part_line self.now) }
    {
        match self.way {
            Way::Fixed(port) => {
                put_octets(into, b"fixed");
                put_key(into, put_addr(self.address).as_str(), self.vlan);
                put_port_field(into, port);
            }
            Way::Bound(bound) => {
                put_octets(into, b"bound");
                put_key(into, put_addr(self.address).as_str(), self.vlan);
                put_port_field(into, bound.p);
                put_until(into, bound.until);
            }
            Way::Claimed(state) => put_claim(into, self.address, self.vlan, state),
        }
    }
}

// Writes the line of a state of first come, first served into an empty buffer, where it is one.
fn put_claim(into: &mut JournalLine, address: Addr, vlan: u16, state: Fcfs)
    requires { into.old.items ≡ [] }
    ensures { into.new.items ≡ joined (fcfs_line (text_in_vlan (addr_text address) vlan) state) }
{
    match state {
        Fcfs::NoBind => {}
        Fcfs::Tentative { p, since, two } => {
            put_claimed(into, address, vlan, "tentative", p);
            put_number(into, since);
            put_two(into, two);
        }
        Fcfs::Valid { p, until } => {
            put_claimed(into, address, vlan, "valid", p);
            put_number(into, until);
        }
        Fcfs::TestLt { p, since, two } => {
            put_claimed(into, address, vlan, "testing-lt", p);
            put_number(into, since);
            put_two(into, two);
        }
        Fcfs::TestVp { p, q, since, two } => {
            put_claimed(into, address, vlan, "testing-vp", p);
            put_port_field(into, q);
            put_number(into, since);
            put_two(into, two);
        }
    }
}

// Writes the fields in front of such a line into an empty buffer: up to the port that has claimed the address.
fn put_claimed(into: &mut JournalLine, address: Addr, vlan: u16, word: &str, port: Port)
    requires empty { into.old.items ≡ [] }
    requires short { length word.now ≤ 10 }
    ensures text { into.new.items ≡ joined (codes "fcfs" ∷ text_in_vlan (addr_text address) vlan ∷ word.now ∷ port_text port ∷ []) }
    ensures size { array_vec_len into.new ≤ 64 }
{
    put_octets(into, b"fcfs");
    put_key(into, put_addr(address).as_str(), vlan);
    put_word(into, word);
    put_port_field(into, port);
}
