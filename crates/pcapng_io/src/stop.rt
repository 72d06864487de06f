/// Why a read of a block stopped.
#[derive(Clone, Copy, PartialEq, Eq, Debug)]
pub(crate) enum Stop {
    // The block is cut short, or breaks a rule.
    Malformed,
    // A read failed.
    Failed,
}
