//! How two decimal numbers compare.

ghost use Rattle.std.specs.Prelude.{◌≡◌, ◌*◌, ◌^◌};
ghost use Rattle.std.specs.Ordering.{nat_cmp};
ghost use Rattle.flow_decimal.specs.Values.{decimal_cmp};

use crate::decimal::Decimal;
use crate::digits::scaled;
use std::cmp::Ordering;

// Compares a number with so many more zeros behind it with another one.
fn scaled_cmp(size: u128, zeros: usize, other: u128) -> Ordering
    ensures { result ≡ nat_cmp (size * 10 ^ zeros) other }
{
    match scaled(size, zeros) {
        Some(size) => size.cmp(&other),
        None => Ordering::Greater,
    }
}

// Compares two numbers, each with so many zeros behind it.
fn sizes_cmp(size: u128, zeros: usize, other: u128, others: usize) -> Ordering
    ensures { result ≡ nat_cmp (size * 10 ^ zeros) (other * 10 ^ others) }
{
    if others <= zeros {
        return scaled_cmp(size, zeros - others, other);
    }
    scaled_cmp(other, others - zeros, size).reverse()
}

// Compares the fractions.
fn fractions_cmp(a: &Decimal, b: &Decimal) -> Ordering
    ensures { result ≡ decimal_cmp a.now b.now }
{
    let (size, other) = (a.whole.unsigned_abs(), b.whole.unsigned_abs());
    if a.whole < 0 && b.whole < 0 {
        return sizes_cmp(other, a.fraction, size, b.fraction);
    }
    if a.whole < 0 {
        return Ordering::Less;
    }
    if b.whole < 0 {
        return Ordering::Greater;
    }
    sizes_cmp(size, b.fraction, other, a.fraction)
}

impl Ord for Decimal {
    ghost use Rattle.flow_decimal.specs.Order.{decimal_cmp_total, decimal_cmp_agrees, decimal_eq_ties};

    ghost cmp = { decimal_cmp };

    ghost total = { decimal_cmp_total };

    ghost matches_partial_cmp = { decimal_cmp_agrees };

    ghost matches_eq = { decimal_eq_ties };

    fn cmp(&self, other: &Decimal) -> Ordering {
        fractions_cmp(self, other)
    }
}

impl PartialOrd for Decimal {
    ghost use Rattle.std.specs.Ordering.{as_partial_cmp};
    ghost use Rattle.flow_decimal.specs.Order.{decimal_cmp_partial};

    ghost partial_cmp = { as_partial_cmp decimal_cmp };

    ghost laws = { decimal_cmp_partial };

    fn partial_cmp(&self, other: &Decimal) -> Option<Ordering> {
        Some(self.cmp(other))
    }
}

impl PartialEq for Decimal {
    ghost use Rattle.std.specs.Ordering.{eq_by_cmp};
    ghost use Rattle.flow_decimal.specs.Order.{decimal_eq_laws};

    ghost eq = { eq_by_cmp decimal_cmp };

    ghost laws = { decimal_eq_laws };

    fn eq(&self, other: &Decimal) -> bool {
        self.cmp(other) == Ordering::Equal
    }
}

impl Eq for Decimal {
    ghost use Rattle.flow_decimal.specs.Order.{decimal_eq_equiv};

    ghost laws = { decimal_eq_equiv };
}
