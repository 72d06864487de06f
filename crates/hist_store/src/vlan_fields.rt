//! What the line of a port, and that of a prefix, has of VLANs (IEEE 802.1Q) in a journal's header.

ghost use Rattle.std.specs.Prelude.{◌≡◌, ◌+◌, ◌-◌, ◌*◌, ◌≤◌, ◌++◌, All, decimal, length};
ghost use Rattle.arrayvec.specs.ArrayVec.{array_vec_len};
ghost use Rattle.savi_kinds.specs.Vlans.{IsVlan, numbers_of_vlan};
ghost use Rattle.hist_store.specs.TextOfLines.{spaced};
ghost use Rattle.hist_store.specs.VlanTexts.{port_vlan_fields, vlan_fields, vlans_text};

use crate::journal_line::JournalLine;
use crate::pieces::{put_decimal, put_octets};
use savi_kinds::{DEFAULT_VLAN, Vlan};

// Appends the VLANs of a port: of an access port at most 10 octets, and of a trunk, which lists at most 8, at most 46.
pub fn put_port_vlans(into: &mut JournalLine, vlan: &Vlan)
    requires vlans { All IsVlan (numbers_of_vlan vlan.now) }
    requires room { array_vec_len into.old + 46 ≤ 3400 }
    ensures text { into.new.items ≡ into.old.items ++ spaced (port_vlan_fields vlan.now) }
    ensures size { array_vec_len into.new ≤ array_vec_len into.old + 46 }
{
    match vlan {
        Vlan::Access(number) => put_vlan(into, *number),
        Vlan::Trunk(numbers) => {
            put_octets(into, b" trunk ");
            put_numbers(into, numbers.as_slice());
        }
    }
}

// Appends the VLAN of a prefix, or of an access port: nothing of VLAN 1, else at most 10 octets.
pub fn put_vlan(into: &mut JournalLine, vlan: u16)
    requires vlan { IsVlan vlan }
    requires room { array_vec_len into.old + 10 ≤ 3400 }
    ensures text { into.new.items ≡ into.old.items ++ spaced (vlan_fields vlan) }
    ensures size { array_vec_len into.new ≤ array_vec_len into.old + 10 }
{
    if vlan == DEFAULT_VLAN {
        return;
    }
    put_octets(into, b" vlan ");
    put_vlan_number(into, vlan);
}

// Appends numbers of VLANs with commas between, each of at most four digits.
fn put_numbers(into: &mut JournalLine, numbers: &[u16])
    requires vlans { All IsVlan numbers.now }
    requires room { array_vec_len into.old + 5 * length numbers.now ≤ 3401 }
    ensures text { into.new.items ≡ into.old.items ++ vlans_text numbers.now }
    ensures size { array_vec_len into.new ≤ array_vec_len into.old + (5 * length numbers.now - 1) }
{
    for (i, number) in numbers.iter().enumerate() {
        if i > 0 {
            into.push(b',');
        }
        put_vlan_number(into, *number);
    }
}

// Appends the number of a VLAN, which has at most four digits.
fn put_vlan_number(into: &mut JournalLine, vlan: u16)
    requires vlan { IsVlan vlan }
    requires room { array_vec_len into.old + 4 ≤ 3400 }
    ensures text { into.new.items ≡ into.old.items ++ decimal vlan }
    ensures size { array_vec_len into.new ≤ array_vec_len into.old + 4 }
{
    put_decimal(into, u64::from(vlan));
}
