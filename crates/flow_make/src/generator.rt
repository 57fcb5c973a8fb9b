//! Pseudo-random numbers.
ghost use Rattle.std.specs.Prelude.{◌≡◌};
ghost use Rattle.flow_make.specs.Numbers.{next_number};

const MULTIPLIER: u64 = 1_103_515_245;

const INCREMENT: u64 = 12_345;

const MODULUS: u64 = 2_147_483_648;

/// Gives the numbers of a linear congruential sequence. (Its constants are those of the C standard's example of `rand`.)
#[derive(Debug, Drop)]
pub struct Generator {
    /// The number that was given last, and at first the one that the sequence begins behind.
    pub number: u32,
}

impl Generator {
    /// The next number of the sequence.
    pub fn next(&mut self) -> u32
        ensures value { result ≡ next_number self.old.number }
        ensures after { self.new.number ≡ result }
    {
        self.number = ((u64::from(self.number) * MULTIPLIER + INCREMENT) % MODULUS) as u32;
        self.number
    }
}
