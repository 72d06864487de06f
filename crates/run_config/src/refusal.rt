use savi_conf::ConfFault;

/// Why a run has no plan.
#[derive(Clone, Copy, PartialEq, Eq, Debug)]
pub enum Refusal {
    /// There was no memory.
    NoMemory,
    /// The configuration couldn't be opened.
    CannotOpen,
    /// A read of it failed.
    ReadFailed,
    /// It says no plan.
    Refused(ConfFault),
}
