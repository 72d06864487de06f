ghost use Rattle.std.specs.Prelude.{◌≡◌, ◌+◌, ◌≤◌, ◌∷◌, ◌++◌, if◌then◌else◌, is_some, IfSome};
ghost use Rattle.arrayvec.specs.ArrayVec.{array_vec_len};
ghost use Rattle.savi_kinds.specs.Characters.{space};
ghost use Rattle.hist_store.specs.TextOfLines.{comma};
ghost use Rattle.savi_kinds.specs.Ports.{number_of};
ghost use Rattle.savi_kinds.specs.PortSets.{is_member};
ghost use Rattle.hist_store.specs.PortTexts.{port_text, members_text};

use crate::journal_line::JournalLine;
use crate::pieces::put_decimal;
use savi_kinds::{PORTS_MOST, Port, PortSet};

/// Appends a space and a port's number.
pub fn put_port_field(into: &mut JournalLine, port: Port)
    requires { array_vec_len into.old + 3 ≤ 3400 }
    ensures text { into.new.items ≡ into.old.items ++ space ∷ port_text port }
    ensures size { array_vec_len into.new ≤ array_vec_len into.old + 3 }
{
    into.push(b' ');
    put_port(into, port);
}

/// Appends a port's number, which has at most two digits.
pub fn put_port(into: &mut JournalLine, port: Port)
    requires { array_vec_len into.old + 2 ≤ 3400 }
    ensures text { into.new.items ≡ into.old.items ++ port_text port }
    ensures size { array_vec_len into.new ≤ array_vec_len into.old + 2 }
{
    put_decimal(into, u64::from(port.get()));
}

/// Appends a space and the members of a set: at most 39 octets, as nine members have one digit. The bound that is proved
/// is 49, as if each of the 16 members had a comma and two digits.
pub fn put_ports(into: &mut JournalLine, set: PortSet)
    requires { array_vec_len into.old + 49 ≤ 3400 }
    ensures text { into.new.items ≡ into.old.items ++ space ∷ members_text set }
    ensures size { array_vec_len into.new ≤ array_vec_len into.old + 49 }
{
    into.push(b' ');
    let mut any = false;
    for index in 0..PORTS_MOST as u8 {
        if let Some(port) = member_of(set, index + 1) {
            put_member(into, port, any);
            any = true;
        }
    }
    if !any {
        into.push(b'-');
    }
}

// Appends a port's number, and a comma in front where it isn't the first.
fn put_member(into: &mut JournalLine, port: Port, after_another: bool)
    requires { array_vec_len into.old + 3 ≤ 3400 }
    ensures text { into.new.items ≡ into.old.items ++ (if after_another then comma ∷ port_text port else port_text port) }
    ensures size { array_vec_len into.new ≤ array_vec_len into.old + 3 }
{
    if after_another {
        into.push(b',');
    }
    put_port(into, port);
}

// The port of this number, where it is a member.
fn member_of(set: PortSet, number: u8) -> Option<Port>
    requires low { 1 ≤ number }
    requires high { number ≤ 16 }
    ensures some { is_some result ≡ is_member set number }
    ensures value { IfSome result (λ p. number_of p ≡ number) }
{
    match Port::new(number) {
        Some(port) if set.contains(port) => Some(port),
        _ => None,
    }
}
