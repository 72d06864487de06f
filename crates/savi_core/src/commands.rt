//! What an operator's commands do.

ghost use Rattle.std.specs.Prelude.{◌≡◌, ◌≤◌, ◌^◌, List, Option, None, Ok, All};
ghost use Rattle.savi_kinds.specs.Ports.{number_of};
ghost use Rattle.savi_kinds.specs.Vlans.{access_vlan, vlans_of};
ghost use Rattle.fcfs_states.specs.declared.event.Ev.TheVariants.{Clear};
ghost use Rattle.cli_lang.specs.CommandOf.{command_of};
ghost use Rattle.savi_access.specs.Rules.{AccessBase};
ghost use Rattle.savi_access.specs.Marks.{Mark, event_told};
ghost use Rattle.savi_access.specs.Plans.{rules_of};
ghost use Rattle.savi_history.specs.ShutPorts.{shut_by};
ghost use Rattle.savi_history.specs.Commands.{refusal_of, static_refusal, clear_refusal, port_refusal, fault_refusal, fixed_in, ordered};
ghost use Rattle.savi_core.specs.Obeys.{Obeys};
ghost use Rattle.savi_core.specs.Rings.{shut_in};
ghost use Rattle.savi_core.specs.VlanSets.{AllRepresent, AreAgedTo, rows_by_vlan, stations_of_sets, vlans_of_sets};

use crate::ports::Ports;
use crate::queues::Queues;
use crate::vlan_set::VlanSet;
use access_table::is_on_link;
use cli_lang::{CmdFault, Command, command};
use control_replies::Refusal;
use savi_kinds::{Addr, Moment, Port};

/// Carries out a line at moment `t` (ms), to which the states of each VLAN are aged: an address is fixed in the VLAN of its
/// port, and cleared in that of its key. The answer is why it is refused; then no state changes. It costs what
/// `AccessTable::fix` and `clear` do.
pub(crate) fn obey(
    sets: &mut [VlanSet],
    queues: &mut Queues,
    ports: &Ports,
    line: &[u8],
    t: Moment,
) -> Option<Refusal>
    requires moment { t ≤ 2 ^ 62 }
    requires vlans { vlans_of_sets sets.old ≡ vlans_of ports.now }
    requires ready { AreAgedTo (rules_of ports.now) t sets.old }
    ensures ready { AreAgedTo (rules_of ports.now) t sets.new }
    ensures stations { stations_of_sets sets.new ≡ stations_of_sets sets.old }
    ensures obeyed { (base : AccessBase) (past : List Mark) → AllRepresent (rules_of ports.now) base past t sets.old
        → Obeys ports.now t (command_of line.now) sets.new queues.old queues.new result base past }
{
    match command(line) {
        Ok(order) => obey_order(sets, queues, ports, order, t),
        Err(fault) => Some(fault_refusal(fault)),
    }
}

// Carries out a command.
fn obey_order(
    sets: &mut [VlanSet],
    queues: &mut Queues,
    ports: &Ports,
    order: Command,
    t: Moment,
) -> Option<Refusal>
    requires moment { t ≤ 2 ^ 62 }
    requires vlans { vlans_of_sets sets.old ≡ vlans_of ports.now }
    requires ready { AreAgedTo (rules_of ports.now) t sets.old }
    ensures ready { AreAgedTo (rules_of ports.now) t sets.new }
    ensures stations { stations_of_sets sets.new ≡ stations_of_sets sets.old }
    ensures obeyed { (base : AccessBase) (past : List Mark) → AllRepresent (rules_of ports.now) base past t sets.old
        → Obeys ports.now t (Ok order) sets.new queues.old queues.new result base past }
{
    let refused = refusal(sets, ports, order);
    match refused {
        None => carry_out(sets, queues, ports, order, t),
        Some(_) => {}
    }
    refused
}

// Why a command is refused.
fn refusal(sets: &[VlanSet], ports: &Ports, order: Command) -> Option<Refusal>
    requires vlans { vlans_of_sets sets.now ≡ vlans_of ports.now }
    requires per_port { All (λ set. set.access.addresses.per_port ≡ ports.now.per_port) sets.now }
    ensures { result ≡ refusal_of ports.now (rows_by_vlan sets.now) (Ok order) }
{
    match order {
        Command::Static(address, port) => static_refusal(sets, ports, address, port),
        Command::Clear(vlan, address) => clear_refusal(sets, ports, vlan, address),
        Command::Shut(port) | Command::Reopen(port) => port_refusal(ports, port),
        Command::ShowBindings
        | Command::ShowPorts
        | Command::ShowCounters
        | Command::ShowStations
        | Command::Quit => None,
    }
}

// Why an address isn't fixed to a port.
fn static_refusal(sets: &[VlanSet], ports: &Ports, address: Addr, port: Port) -> Option<Refusal>
    requires vlans { vlans_of_sets sets.now ≡ vlans_of ports.now }
    requires per_port { All (λ set. set.access.addresses.per_port ≡ ports.now.per_port) sets.now }
    ensures { result ≡ static_refusal ports.now (rows_by_vlan sets.now) address.0 port }
{
    if ports.role_of(port).is_none() {
        return Some(Refusal::NoSuchPort);
    }
    let Some(set) = ports.place_of_access(port) else {
        return Some(Refusal::TrustedPort);
    };
    let access = &sets[set].access;
    if !is_on_link(ports.plan(), access.vlan(), address) {
        return Some(Refusal::OffLink);
    }
    if !access.may_fix(address, port) {
        return Some(Refusal::PortFull);
    }
    None
}

// Why an address isn't cleared in a VLAN.
fn clear_refusal(sets: &[VlanSet], ports: &Ports, vlan: u16, address: Addr) -> Option<Refusal>
    requires { vlans_of_sets sets.now ≡ vlans_of ports.now }
    ensures { result ≡ clear_refusal ports.now (rows_by_vlan sets.now) vlan address.0 }
{
    let Some(set) = ports.place_of_vlan(vlan) else {
        return Some(Refusal::BadAddress);
    };
    if sets[set].access.has_state(address) {
        None
    } else {
        Some(Refusal::NoBinding)
    }
}

// Why a port is neither shut nor opened.
fn port_refusal(ports: &Ports, port: Port) -> Option<Refusal>
    ensures { result ≡ port_refusal ports.now port }
{
    match ports.role_of(port) {
        Some(_) => None,
        None => Some(Refusal::NoSuchPort),
    }
}

/// What a line is refused for that is no command. O(1).
pub(crate) fn fault_refusal(fault: CmdFault) -> Refusal
    ensures { result ≡ fault_refusal fault }
{
    match fault {
        CmdFault::Unknown => Refusal::UnknownCommand,
        CmdFault::Address => Refusal::BadAddress,
        CmdFault::PortNumber => Refusal::BadPort,
    }
}

// What a command that isn't refused makes of an address, or of a port.
fn carry_out(sets: &mut [VlanSet], queues: &mut Queues, ports: &Ports, order: Command, t: Moment)
    requires moment { t ≤ 2 ^ 62 }
    requires vlans { vlans_of_sets sets.old ≡ vlans_of ports.now }
    requires ready { AreAgedTo (rules_of ports.now) t sets.old }
    requires granted { refusal_of ports.now (rows_by_vlan sets.old) (Ok order) ≡ None }
    ensures ready { AreAgedTo (rules_of ports.now) t sets.new }
    ensures stations { stations_of_sets sets.new ≡ stations_of_sets sets.old }
    ensures told { (base : AccessBase) (past : List Mark) → AllRepresent (rules_of ports.now) base past t sets.old
        → AllRepresent (rules_of ports.now) base (ordered ports.now base t (Ok order) past) t sets.new }
    ensures shut { shut_in queues.new.shut ≡ (λ number. shut_by ports.now number (Ok order) (shut_in queues.old.shut number)) }
    ensures rest { queues.new ≡ record queues.old { shut = queues.new.shut } }
{
    match order {
        Command::Static(address, port) => fix(sets, ports, address, port, t),
        Command::Clear(vlan, address) => clear(sets, ports, vlan, address, t),
        Command::Shut(port) => queues.set_shut(port, true),
        Command::Reopen(port) => queues.set_shut(port, false),
        Command::ShowBindings
        | Command::ShowPorts
        | Command::ShowCounters
        | Command::ShowStations
        | Command::Quit => {}
    }
}

// Fixes an address to a port, in the VLAN of the port.
fn fix(sets: &mut [VlanSet], ports: &Ports, address: Addr, port: Port, t: Moment)
    requires moment { t ≤ 2 ^ 62 }
    requires vlans { vlans_of_sets sets.old ≡ vlans_of ports.now }
    requires ready { AreAgedTo (rules_of ports.now) t sets.old }
    requires granted { static_refusal ports.now (rows_by_vlan sets.old) address.0 port ≡ None }
    ensures ready { AreAgedTo (rules_of ports.now) t sets.new }
    ensures stations { stations_of_sets sets.new ≡ stations_of_sets sets.old }
    ensures told { (base : AccessBase) (past : List Mark) → AllRepresent (rules_of ports.now) base past t sets.old
        → AllRepresent (rules_of ports.now) base (fixed_in ports.now base t (access_vlan ports.now (number_of port)) address.0 port past) t sets.new }
{
    if let Some(set) = ports.place_of_access(port) {
        let access = &mut sets[set].access;
        access.fix(ports.plan(), address, port, t);
    }
}

// Clears an address in a VLAN.
fn clear(sets: &mut [VlanSet], ports: &Ports, vlan: u16, address: Addr, t: Moment)
    requires moment { t ≤ 2 ^ 62 }
    requires vlans { vlans_of_sets sets.old ≡ vlans_of ports.now }
    requires ready { AreAgedTo (rules_of ports.now) t sets.old }
    requires granted { clear_refusal ports.now (rows_by_vlan sets.old) vlan address.0 ≡ None }
    ensures ready { AreAgedTo (rules_of ports.now) t sets.new }
    ensures stations { stations_of_sets sets.new ≡ stations_of_sets sets.old }
    ensures told { (base : AccessBase) (past : List Mark) → AllRepresent (rules_of ports.now) base past t sets.old
        → AllRepresent (rules_of ports.now) base (event_told (rules_of ports.now) base vlan t past address.0 Clear) t sets.new }
{
    if let Some(set) = ports.place_of_vlan(vlan) {
        let access = &mut sets[set].access;
        access.clear(ports.plan(), address, t);
    }
}
