//! A linear congruential generator.

ghost use Rattle.std.specs.Prelude.{◌≡◌, ◌/◌, ◌<◌};
ghost use Rattle.load_gen.specs.Draws.{next_draw};

const MULTIPLIER: u64 = 1_103_515_245;

const INCREMENT: u64 = 12_345;
/// The states are numbers of 31 bits.
const MODULUS: u64 = 1 << 31;
/// The low 16 bits of a state aren't given.
const LOW_END: u32 = 65_536;

// The generator, by its state.
#[derive(Drop)]
pub(crate) struct Generator {
    pub(crate) state: u32,
}

impl Generator {
    // Takes a step and gives the new state without its low bits.
    pub(crate) fn draw(&mut self) -> u32
        ensures state { self.new.state ≡ next_draw self.old.state }
        ensures value { result ≡ self.new.state / 65536 }
    {
        self.state = ((MULTIPLIER * u64::from(self.state) + INCREMENT) % MODULUS) as u32;
        self.state / LOW_END
    }
}
