//! The states of addresses as a plain list. Each call looks at all of them.

use mix_rules::AddrState;
use savi_kinds::{Addr, Port};
use std::alloc::{AllocError, Global};

#[derive(Drop)]
pub struct PlainRows {
    rows: Vec<(Addr, AddrState)>,
}

impl PlainRows {
    pub fn make(alloc: Global) -> PlainRows {
        PlainRows {
            rows: Vec::new(alloc),
        }
    }

    pub fn get(&self, a: Addr) -> AddrState {
        for (address, state) in &self.rows {
            if *address == a {
                return *state;
            }
        }
        AddrState::none()
    }

    pub fn put(&mut self, a: Addr, state: AddrState) -> Result<(), AllocError> {
        self.remove(a);
        self.rows.push((a, state))?;
        Ok(())
    }

    pub fn remove(&mut self, a: Addr) {
        self.rows.retain(|row| row.0 != a);
    }

    pub fn count(&self, q: Port) -> usize {
        self.rows.iter().filter(|row| row.1.holds(q)).count()
    }

    pub fn size(&self) -> usize {
        self.rows.len()
    }

    /// How many rows have lower addresses.
    pub fn count_lower(&self, a: Addr) -> usize {
        self.rows.iter().filter(|row| row.0.0 < a.0).count()
    }
}
