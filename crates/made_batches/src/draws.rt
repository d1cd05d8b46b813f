ghost use Rattle.std.specs.Prelude.{◌≡◌, ◌/◌};
ghost use Rattle.made_batches.specs.Draws.{next};

const MULTIPLIER: u64 = 1_103_515_245;

const INCREMENT: u64 = 12_345;

const MODULUS: u64 = 1 << 31;

/// A linear congruential generator.
#[derive(Clone, Copy, Debug)]
pub struct Draws {
    state: u32,
}

impl Draws {
    /// The generator before the first draw from a seed.
    pub fn new(seed: u32) -> Draws
        ensures { result.state ≡ seed }
    {
        Draws { state: seed }
    }

    /// The next draw: the next number without its 16 low bits.
    pub fn draw(&mut self) -> u32
        ensures state { self.new.state ≡ next self.old.state }
        ensures value { result ≡ self.new.state / 65536 }
    {
        let number = (u64::from(self.state) * MULTIPLIER + INCREMENT) % MODULUS;
        self.state = number as u32;
        self.state / 65536
    }
}
