//! Rows: texts as numbers, and how two of them compare and what they sum to.
use flow_decimal::{Decimal, NumberStop};
use std::alloc::{AllocError, Global};
use std::cmp::Ordering;
use std::test::Fail;

/// A text, and how the number is spelled that it is, or why it is refused.
struct NumberRow {
    text: &'static str,
    spelled: Result<&'static str, NumberStop>,
}

const NUMBERS: [NumberRow; 22] = [
    NumberRow {
        text: "-12",
        spelled: Ok("-12"),
    },
    NumberRow {
        text: "+3.50",
        spelled: Ok("3.50"),
    },
    NumberRow {
        text: "0.1",
        spelled: Ok("0.1"),
    },
    // Zeros behind the point stay, and those before the number don't.
    NumberRow {
        text: "007.10",
        spelled: Ok("7.10"),
    },
    NumberRow {
        text: "-000.005",
        spelled: Ok("-0.005"),
    },
    // Nothing has no sign.
    NumberRow {
        text: "-0.0",
        spelled: Ok("0.0"),
    },
    // The greatest and the least whole number of 128 bits, with a point and without, and those beyond them.
    NumberRow {
        text: "170141183460469231731687303715884105727",
        spelled: Ok("170141183460469231731687303715884105727"),
    },
    NumberRow {
        text: "-17014118346046923173168730371588410.5728",
        spelled: Ok("-17014118346046923173168730371588410.5728"),
    },
    NumberRow {
        text: "17014118346046923173168730371588410.5728",
        spelled: Err(NumberStop::TooLarge),
    },
    NumberRow {
        text: "-170141183460469231731687303715884105729",
        spelled: Err(NumberStop::TooLarge),
    },
    NumberRow {
        text: "340282366920938463463374607431768211456",
        spelled: Err(NumberStop::TooLarge),
    },
    // So many zeros before its digits take no bits.
    NumberRow {
        text: "0.0000000000000000000000000000000000000000000007",
        spelled: Ok("0.0000000000000000000000000000000000000000000007"),
    },
    NumberRow {
        text: "1.0000000000000000000000000000000000000000000000",
        spelled: Err(NumberStop::TooLarge),
    },
    // No digit stands before the point, or behind it.
    NumberRow {
        text: ".5",
        spelled: Err(NumberStop::NoNumber),
    },
    NumberRow {
        text: "5.",
        spelled: Err(NumberStop::NoNumber),
    },
    NumberRow {
        text: "",
        spelled: Err(NumberStop::NoNumber),
    },
    NumberRow {
        text: "-",
        spelled: Err(NumberStop::NoNumber),
    },
    NumberRow {
        text: "+-1",
        spelled: Err(NumberStop::NoNumber),
    },
    NumberRow {
        text: "1.2.3",
        spelled: Err(NumberStop::NoNumber),
    },
    NumberRow {
        text: " 1",
        spelled: Err(NumberStop::NoNumber),
    },
    NumberRow {
        text: "1e5",
        spelled: Err(NumberStop::NoNumber),
    },
    // What is no number is none, however large it would be.
    NumberRow {
        text: "999999999999999999999999999999999999999999x",
        spelled: Err(NumberStop::NoNumber),
    },
];

/// Two numbers, how the first compares with the second, and their sum.
struct PairRow {
    first: &'static str,
    second: &'static str,
    order: Ordering,
    sum: Option<&'static str>,
}

const PAIRS: [PairRow; 8] = [
    PairRow {
        first: "1.50",
        second: "2",
        order: Ordering::Less,
        sum: Some("3.50"),
    },
    PairRow {
        first: "1.50",
        second: "1.5",
        order: Ordering::Equal,
        sum: Some("3.00"),
    },
    PairRow {
        first: "0.1",
        second: "-0.10",
        order: Ordering::Greater,
        sum: Some("0.00"),
    },
    PairRow {
        first: "-10",
        second: "-9.99",
        order: Ordering::Less,
        sum: Some("-19.99"),
    },
    PairRow {
        first: "170141183460469231731687303715884105727",
        second: "0.0000000000000000000000000000000000000000000007",
        order: Ordering::Greater,
        sum: None,
    },
    PairRow {
        first: "-170141183460469231731687303715884105728",
        second: "0.1",
        order: Ordering::Less,
        sum: None,
    },
    // With one more digit the first one has more than 128 bits, and the sum hasn't.
    PairRow {
        first: "17014118346046923173168730371588410573",
        second: "-0.5",
        order: Ordering::Greater,
        sum: Some("17014118346046923173168730371588410572.5"),
    },
    PairRow {
        first: "0",
        second: "0.00000000000000000000000000000000000000000000000",
        order: Ordering::Equal,
        sum: Some("0.00000000000000000000000000000000000000000000000"),
    },
];

fn is_spelled(alloc: Global, number: &Decimal, spelled: &str) -> Result<bool, AllocError> {
    let text = number.spell(alloc)?;
    Ok(text.as_slice() == spelled.as_bytes())
}

// Whether the row's text comes to what it says.
fn is_read(alloc: Global, row: &NumberRow) -> Result<bool, AllocError> {
    match (Decimal::parse(row.text.as_bytes()), row.spelled) {
        (Ok(number), Ok(spelled)) => is_spelled(alloc, &number, spelled),
        (Err(stop), Err(wanted)) => Ok(stop == wanted),
        _ => Ok(false),
    }
}

// Whether the sum of two numbers is spelled so, or is none.
fn is_sum(
    alloc: Global,
    first: &Decimal,
    second: &Decimal,
    wanted: Option<&str>,
) -> Result<bool, AllocError> {
    match (first.checked_add(second), wanted) {
        (Some(sum), Some(spelled)) => is_spelled(alloc, &sum, spelled),
        (None, None) => Ok(true),
        _ => Ok(false),
    }
}

// Whether both numbers of a row compare and add so, also the other way round.
fn is_paired(alloc: Global, row: &PairRow) -> Result<bool, AllocError> {
    let (Ok(first), Ok(second)) = (
        Decimal::parse(row.first.as_bytes()),
        Decimal::parse(row.second.as_bytes()),
    ) else {
        return Ok(false);
    };
    if first.cmp(&second) != row.order || second.cmp(&first) != row.order.reverse() {
        return Ok(false);
    }
    Ok(is_sum(alloc, &first, &second, row.sum)? && is_sum(alloc, &second, &first, row.sum)?)
}

#[test]
fn texts_are_numbers(rt: HostRuntime) -> Result<(), Fail> {
    for row in &NUMBERS {
        assert!(rt; is_read(rt.alloc(), row)?, "of {}", row.text);
    }
    Ok(())
}

#[test]
fn numbers_compare_and_add(rt: HostRuntime) -> Result<(), Fail> {
    for row in &PAIRS {
        assert!(rt;
            is_paired(rt.alloc(), row)?,
            "of {} and {}",
            row.first,
            row.second
        );
    }
    Ok(())
}
