//! A bounded ring by which one thread hands items to another, each once and in the order in which they were put.
//!
//! `IntakeRing::make` gives the two ends. The `Filler` puts items, and waits where the ring is full; the `Taker` takes
//! them, and answers None only where the ring was empty. Neither end spins: who can't go on sleeps (`sleeper`) until the
//! other end has done something, for 100 ms at most; who has a share of the taker's place (`Taker::sleeper`) may end its
//! sleep too. `IntakeRing::close` takes both ends back and tells that what was taken is a prefix of what was put
//! (`specs/Order.antt` has the rule that every step keeps). It is `RuledArrayQueue` of `crossbeam_queue` under that rule.
//!
//! A ring says nothing of time: that an item comes out, or that an end wakes, isn't promised, nor how many items there is
//! room for.
#![tactic(auto)]

mod filler;
mod ring;
mod rule;
mod taker;

pub use filler::Filler;
pub use ring::IntakeRing;
pub use taker::Taker;
