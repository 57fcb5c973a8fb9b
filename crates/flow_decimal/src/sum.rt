//! The sum of two decimal numbers.

ghost use Rattle.std.specs.Prelude.{◌≡◌, ◌≤◌, FitsSigned, ◌+ℤ◌};
ghost use Rattle.std.specs.Int.{w128};
ghost use Rattle.std.specs.Option.{SomeIff};
ghost use Rattle.flow_decimal.specs.Values.{lengthened, sum};

use crate::decimal::Decimal;
use crate::digits::scaled;

impl Decimal {
    // The whole number of the sum with a number whose fraction is no longer.
    fn whole_with(&self, shorter: &Decimal) -> Option<i128>
        requires shorter { shorter.now.fraction ≤ self.now.fraction }
        ensures { SomeIff result (FitsSigned w128 (self.now.whole +ℤ (lengthened shorter.now self.now.fraction).whole)) (self.now.whole +ℤ (lengthened shorter.now self.now.fraction).whole) }
    {
        let (whole, addend) = (self.whole, shorter.whole);
        let zeros = self.fraction - shorter.fraction;
        match scaled(addend.unsigned_abs(), zeros) {
            Some(size) if addend < 0 => whole.checked_sub_unsigned(size),
            Some(size) => whole.checked_add_unsigned(size),
            None => None,
        }
    }

    // The sum with a number whose fraction is no longer.
    fn with_shorter(&self, shorter: &Decimal) -> Option<Decimal>
        requires shorter { shorter.now.fraction ≤ self.now.fraction }
        ensures { SomeIff result (FitsSigned w128 (sum self.now shorter.now).whole) (sum self.now shorter.now) }
    {
        match self.whole_with(shorter) {
            Some(whole) => Some(Decimal {
                whole,
                fraction: self.fraction,
            }),
            None => None,
        }
    }

    /// The sum, with as many digits behind the point as the one has that has more: 1.50 and 2 are 3.50. None: it has more
    /// than 128 bits, and nothing is rounded.
    pub fn checked_add(&self, other: &Decimal) -> Option<Decimal>
        ensures { SomeIff result (FitsSigned w128 (sum self.now other.now).whole) (sum self.now other.now) }
    {
        if other.fraction <= self.fraction {
            return self.with_shorter(other);
        }
        other.with_shorter(self)
    }
}
