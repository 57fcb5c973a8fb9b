//! Rows: bounds, and the numbers that meet them.
use flow_decimal::{Bound, BoundStop, Decimal, NumberStop};

/// A bound, numbers for which it holds, and numbers for which it doesn't.
struct BoundRow {
    text: &'static str,
    holds: &'static [&'static str],
    fails: &'static [&'static str],
}

const BOUNDS: [BoundRow; 7] = [
    BoundRow {
        text: "> 100",
        holds: &["100.01", "101"],
        fails: &["100", "100.00", "-101"],
    },
    BoundRow {
        text: ">= 0.5",
        holds: &["0.5", "0.50", "7"],
        fails: &["0.49", "-1"],
    },
    BoundRow {
        text: "= 3",
        holds: &["3", "+3.000"],
        fails: &["3.001", "-3"],
    },
    BoundRow {
        text: "!= 3",
        holds: &["3.001", "-3"],
        fails: &["3", "+3.000"],
    },
    BoundRow {
        text: "< -1",
        holds: &["-1.5", "-2"],
        fails: &["-1", "0"],
    },
    BoundRow {
        text: "<=7",
        holds: &["7", "-8"],
        fails: &["7.1"],
    },
    // Blanks are spaces and tabs.
    BoundRow {
        text: "> \t 1",
        holds: &["2"],
        fails: &["1"],
    },
];

// Texts that are no bounds, and why.
const REFUSED: [(&str, BoundStop); 8] = [
    ("", BoundStop::NoComparison),
    ("100", BoundStop::NoComparison),
    (" > 1", BoundStop::NoComparison),
    ("! 3", BoundStop::NoComparison),
    (">", BoundStop::Number(NumberStop::NoNumber)),
    ("> =1", BoundStop::Number(NumberStop::NoNumber)),
    ("== 1", BoundStop::Number(NumberStop::NoNumber)),
    (
        "< 999999999999999999999999999999999999999999",
        BoundStop::Number(NumberStop::TooLarge),
    ),
];

// Whether the bound holds for each of these numbers, or for none of them.
fn all_are(bound: &Bound, numbers: &[&str], wanted: bool) -> bool {
    for text in numbers {
        let Ok(number) = Decimal::parse(text.as_bytes()) else {
            return false;
        };
        if bound.holds(&number) != wanted {
            return false;
        }
    }
    true
}

fn is_so(row: &BoundRow) -> bool {
    match Bound::parse(row.text.as_bytes()) {
        Ok(bound) => all_are(&bound, row.holds, true) && all_are(&bound, row.fails, false),
        Err(_) => false,
    }
}

fn is_refused(text: &str, wanted: BoundStop) -> bool {
    match Bound::parse(text.as_bytes()) {
        Ok(_) => false,
        Err(stop) => stop == wanted,
    }
}

#[test]
fn bounds_hold_or_not(rt: HostRuntime) {
    for row in &BOUNDS {
        assert!(rt; is_so(row), "of {}", row.text);
    }
}

#[test]
fn no_bounds_are_refused(rt: HostRuntime) {
    for (text, stop) in &REFUSED {
        assert!(rt; is_refused(*text, *stop), "of {text}");
    }
}
