//! The calls of a binding table that are timed.

ghost use Rattle.std.specs.Prelude.{◌≡◌, ◌≤◌, ◌+◌, true, count_by, length, fold};
ghost use Rattle.mix_rules.specs.States.{has_state};
ghost use Rattle.savi_access.specs.Rows.{state_in};
ghost use Rattle.tables_bench.specs.Renewed.{renewed_all};

use bind_table::BindTable;
use fcfs_states::Fcfs;
use mix_rules::AddrState;
use savi_kinds::{Addr, Moment, Port};

/// The state of an address that is bound to port 1 by first come until a moment (ms).
pub fn bound_until(until: Moment) -> AddrState
    ensures { has_state result ≡ true }
{
    let Some(p) = Port::new(1) else {
        unreachable!()
    };
    AddrState {
        fixed: None,
        fcfs: Fcfs::Valid { p, until },
        dhcp: None,
    }
}

/// How many of these addresses have a state.
pub fn count_bound(table: &BindTable, asked: &[Addr]) -> u64
    ensures { result ≡ count_by (λ a. has_state (state_in table.now.rows a.0)) asked.now }
{
    let mut bound = 0;
    for a in asked {
        if !table.get(*a).is_none() {
            bound += 1;
        }
    }
    bound
}

/// Gives each of these addresses this state.
pub fn renew_all(table: &mut BindTable, asked: &[Addr], state: AddrState)
    requires state { has_state state ≡ true }
    requires room { length table.old.rows + length asked.now ≤ table.old.most }
    ensures { table.new ≡ record table.old { rows = renewed_all state table.old.rows asked.now } }
{
    for a in asked {
        table.put(*a, state);
    }
}
