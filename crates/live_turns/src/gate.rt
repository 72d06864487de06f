//! Who sees the turns of a session, and when its inputs wait.

use std::sync::Wait;

/// Sees each turn before it is taken. It may wait.
pub trait Gate: Sync {
    /// Comes before each turn of a pass. The turns of a pass are numbered from 1 on, and the number stays at 2^64 - 1.
    fn pass_by<R: Wait>(&self, rt: &R, pass: u32, turn: u64);

    /// Tells whether the inputs wait for the outputs: true from where a history is found full, or while one thread serves
    /// all ends, until all that was sent is written, and then false. It doesn't wait.
    fn inputs_wait(&self, is_so: bool);
}

/// The gate that does nothing.
pub struct NoGate;

impl Gate for NoGate {
    fn pass_by<R: Wait>(&self, _rt: &R, _pass: u32, _turn: u64) {}

    fn inputs_wait(&self, _is_so: bool) {}
}
