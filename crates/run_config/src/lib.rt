//! What a run of the switch is asked to do: the words of the command line, and the configuration that they name.
#![tactic(auto)]

mod asked;
mod reading;
mod refusal;

pub use asked::{Asked, asked_by};
pub use reading::configure;
pub use refusal::Refusal;
