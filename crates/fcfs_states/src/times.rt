// The times of a plan.

/// The times by which a state ages, in ms.
#[derive(Clone, Copy, PartialEq, Eq, Debug)]
pub struct Times {
    /// From the first probe to the second one.
    pub gap: u64,
    /// How long a claim or a test stands.
    pub test: u64,
    /// How long a binding stands after its holder was last heard.
    pub life: u64,
}
