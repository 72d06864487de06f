//! The lines of a journal's header behind the settings: the ports, the prefixes and `begin`.

ghost use Rattle.std.specs.Prelude.{◌≡◌, ◌≢◌, ◌↔◌, ◌+◌, ◌-◌, ◌<◌, ◌≤◌, [], ◌∷◌, ◌++◌, IfNone, IfOk, IfSome, IsTrue, length, slice_index, slice_index_or, vec_capacity};
ghost use Rattle.savi_kinds.specs.declared.plan.PortPlan.{PortPlan};
ghost use Rattle.savi_kinds.specs.declared.plan.PrefixPlan.{PrefixPlan};
ghost use Rattle.savi_kinds.specs.Ports.{number_of};
ghost use Rattle.savi_kinds.specs.Prefixes.{IsPrefix};
ghost use Rattle.savi_kinds.specs.ValidPlan.{numbers_of};
ghost use Rattle.hist_store.specs.TextOfLines.{joined};
ghost use Rattle.hist_store.specs.JournalTexts.{address_text, begin_line, journal_port_fields, prefix_fields};

use crate::ranges::is_plan_prefix;
use crate::vlans::may_have_vlans;
use hist_store::{is_begin_line, read_port_line, read_prefix_line};
use savi_kinds::{Format, PORTS_MOST, PREFIXES_MOST, Port, PortPlan, PrefixPlan, Role, Text, Vlan};
use std::alloc::{AllocError, Global};

/// The ports and prefixes of a plan, as far as they were read, with room for all that a plan may have. They have no names.
#[derive(Drop)]
pub struct Lists {
    pub ports: Vec<PortPlan>,
    pub prefixes: Vec<PrefixPlan>,
    ghost room_for_ports: { 16 ≤ vec_capacity ports },
    ghost room_for_prefixes: { 32 ≤ vec_capacity prefixes },
}

/// What a line says behind those that were read.
#[derive(PartialEq, Eq, Debug, Drop)]
pub enum Listed {
    Port(Port, Role, Format, Vlan),
    Prefix(PrefixPlan),
    Begin,
    /// It is none that may stand there.
    Bad,
}

/// What came of taking a line.
#[derive(Clone, Copy, PartialEq, Eq, Debug)]
pub enum Added {
    /// It is that of a port or of a prefix, which was added.
    Line,
    Begin,
    /// It is none that may stand there.
    Bad,
}

impl Lists {
    ghost use Rattle.journal_check.specs.ListLines.{AreLists, Adds, MayAddPort, MayAddPrefix, SaysListed, port_by};

    /// Empty lists, with room for as many ports and prefixes as a plan may have. All their memory is taken here.
    pub fn make(alloc: Global) -> Result<Lists, AllocError>
        ensures { IfOk result (λ lists. (lists.ports.items ≡ []) × (lists.prefixes.items ≡ [])) }
    {
        let ports = Vec::with_capacity(alloc, PORTS_MOST)?;
        let prefixes = Vec::with_capacity(alloc, PREFIXES_MOST)?;
        Ok(Lists { ports, prefixes })
    }

    /// Takes a line, which comes behind those that were taken. O(1).
    pub fn take(&mut self, alloc: Global, line: &[u8]) -> Added
        requires { AreLists self.old.ports.items self.old.prefixes.items }
        ensures { Adds result line.now self.old.ports.items self.old.prefixes.items self.new.ports.items self.new.prefixes.items }
    {
        match self.read(line) {
            Listed::Port(number, role, format, vlan) => {
                self.add_port(alloc, number, role, format, vlan);
                Added::Line
            }
            Listed::Prefix(plan) => {
                self.add_prefix(plan);
                Added::Line
            }
            Listed::Begin => Added::Begin,
            Listed::Bad => Added::Bad,
        }
    }

    // What the line says behind those that were read.
    fn read(&self, line: &[u8]) -> Listed
        requires { AreLists self.now.ports.items self.now.prefixes.items }
        ensures { SaysListed result self.now.ports.items self.now.prefixes.items line.now }
    {
        match self.read_port(line) {
            Some((number, role, format, vlan)) => {
                return Listed::Port(number, role, format, vlan);
            }
            None => {}
        }
        match self.read_prefix(line) {
            Some(plan) => return Listed::Prefix(plan),
            None => {}
        }
        if self.read_begin(line) {
            Listed::Begin
        } else {
            Listed::Bad
        }
    }

    // The port that the line says, if one may come next.
    fn read_port(&self, line: &[u8]) -> Option<(Port, Role, Format, Vlan)>
        requires { AreLists self.now.ports.items self.now.prefixes.items }
        ensures read { IfSome result (λ r. MayAddPort self.now.ports.items self.now.prefixes.items (port_by r.0 r.1 r.2 r.3)
            × (line.now ≡ joined (journal_port_fields (port_by r.0 r.1 r.2 r.3)))) }
        ensures none { IfNone result ((next : PortPlan) → MayAddPort self.now.ports.items self.now.prefixes.items next
            → line.now ≢ joined (journal_port_fields next)) }
    {
        if self.ports.len() >= PORTS_MOST {
            return None;
        }
        if !self.prefixes.is_empty() {
            return None;
        }
        let (number, role, format, vlan) = read_port_line(line, self.last_port())?;
        if may_have_vlans(role, &vlan, self.ports.as_slice()) {
            Some((number, role, format, vlan))
        } else {
            None
        }
    }

    // The prefix that the line says, if one may come next.
    fn read_prefix(&self, line: &[u8]) -> Option<PrefixPlan>
        requires { AreLists self.now.ports.items self.now.prefixes.items }
        ensures read { IfSome result (λ plan. MayAddPrefix self.now.ports.items self.now.prefixes.items plan × (line.now ≡ joined (prefix_fields address_text plan))) }
        ensures none { IfNone result ((next : PrefixPlan) → MayAddPrefix self.now.ports.items self.now.prefixes.items next
            → line.now ≢ joined (prefix_fields address_text next)) }
    {
        if self.ports.is_empty() {
            return None;
        }
        if self.prefixes.len() >= PREFIXES_MOST {
            return None;
        }
        match read_prefix_line(line, self.last_prefix()) {
            Some(plan) => {
                if is_plan_prefix(plan.prefix) {
                    Some(plan)
                } else {
                    None
                }
            }
            None => None,
        }
    }

    // Whether the line is `begin`, and that may come next.
    fn read_begin(&self, line: &[u8]) -> bool
        ensures { IsTrue result ↔ ((0 < length self.now.ports.items) × (line.now ≡ joined begin_line)) }
    {
        !self.ports.is_empty() && is_begin_line(line)
    }

    fn last_port(&self) -> Option<Port>
        ensures none { IfNone result (self.now.ports.items ≡ []) }
        ensures some { IfSome result (λ port. (0 < length self.now.ports.items)
            × (number_of port ≡ slice_index (numbers_of self.now.ports.items) (length self.now.ports.items - 1))) }
    {
        match self.ports.last() {
            Some(port) => Some(port.number),
            None => None,
        }
    }

    fn last_prefix(&self) -> Option<PrefixPlan>
        requires { AreLists self.now.ports.items self.now.prefixes.items }
        ensures none { IfNone result (self.now.prefixes.items ≡ []) }
        ensures some { IfSome result (λ plan. (0 < length self.now.prefixes.items)
            × ((d : PrefixPlan) → slice_index_or self.now.prefixes.items (length self.now.prefixes.items - 1) d ≡ plan)) }
        ensures valid { IfSome result (λ plan. IsPrefix plan.prefix) }
    {
        match self.prefixes.last() {
            Some(plan) => Some(*plan),
            None => None,
        }
    }

    // Adds a port without names. There is room for it.
    fn add_port(&mut self, alloc: Global, number: Port, role: Role, format: Format, vlan: Vlan)
        requires { length self.old.ports.items < 16 }
        ensures ports { self.new.ports.items ≡ self.old.ports.items ++ port_by number role format vlan ∷ [] }
        ensures prefixes { self.new.prefixes.items ≡ self.old.prefixes.items }
    {
        let added = self.ports.push(PortPlan {
            number,
            role,
            format,
            input: Text::new(String::new(alloc)),
            output: Text::new(String::new(alloc)),
            vlan,
        });
        match added {
            Ok(()) => {}
            Err(_) => unreachable!(),
        }
    }

    // Adds a prefix. There is room for it.
    fn add_prefix(&mut self, plan: PrefixPlan)
        requires { length self.old.prefixes.items < 32 }
        ensures ports { self.new.ports.items ≡ self.old.ports.items }
        ensures prefixes { self.new.prefixes.items ≡ self.old.prefixes.items ++ plan ∷ [] }
    {
        match self.prefixes.push(plan) {
            Ok(()) => {}
            Err(_) => unreachable!(),
        }
    }
}
