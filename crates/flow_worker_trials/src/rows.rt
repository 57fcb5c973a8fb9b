//! Networks by one worker and by four, of whose runs more than one thing may come. (What is the same in every run rows
//! tell.)
use flow_component::NoGate;
use flow_rig::{Called, File, call_by_workers};
use std::process::Abort;

const ONE: &[&str] = &["--workers", "1", "net"];

const FOUR: &[&str] = &["--workers", "4", "net"];

const MERGED: &[File<'static>] = &[
    (
        "net",
        b"flow 1\n'a' -> FILE A(ReadLines)\n'b' -> FILE B(ReadLines)\nA OUT -> IN Write(WriteLines)\nB OUT -> IN Write\n'o' -> FILE Write\n",
    ),
    ("a", b"a1\na2\n"),
    ("b", b"b1\nb2\n"),
];

/// The merges that keep each reader's order.
const MERGES: &[&[u8]] = &[
    b"a1\na2\nb1\nb2\n",
    b"a1\nb1\na2\nb2\n",
    b"a1\nb1\nb2\na2\n",
    b"b1\na1\na2\nb2\n",
    b"b1\na1\nb2\na2\n",
    b"b1\nb2\na1\na2\n",
];

fn check_merged(rt: &impl Abort, called: &Called) {
    assert_eq!(rt; called.status, 0);
    assert!(rt;
        called
            .printed
            .ends_with(b"total turns 20 made 4 dropped 4 left 0\n")
    );
    let written = called.shelf.file("o").unwrap_or(b"");
    assert!(rt; MERGES.iter().any(|merge| written == *merge));
}

#[test]
fn two_readers_are_merged_by_workers(rt: HostRuntime) {
    for line in &[ONE, FOUR] {
        let called = call_by_workers(&rt, rt.alloc(), *line, MERGED, &NoGate);
        check_merged(&rt, &called.expect(&rt, "no call"));
    }
}

const BALANCED: &[File<'static>] = &[
    (
        "net",
        b"flow 1\n'i' -> FILE Read(ReadLines)\nRead OUT -> IN Load(LoadBalance)\nLoad OUT[0] -> IN A(WriteLines)\nLoad OUT[1] -> IN B(WriteLines)\n'o' -> FILE A\n'p' -> FILE B\n",
    ),
    ("i", b"a\nb\nc\nd\n"),
];

/// Whether each of the lines is in one of the two files, and each file has the lines in their order.
fn is_split(lines: &[u8], one: &[u8], other: &[u8]) -> bool {
    let mut first = 0;
    let mut second = 0;
    for byte in lines.chunks(2) {
        if first < one.len() && one[first..].starts_with(byte) {
            first += byte.len();
        } else if second < other.len() && other[second..].starts_with(byte) {
            second += byte.len();
        } else {
            return false;
        }
    }
    first == one.len() && second == other.len()
}

fn check_balanced(rt: &impl Abort, called: &Called) {
    assert_eq!(rt; called.status, 0);
    let one = called.shelf.file("o").unwrap_or(b"?");
    let other = called.shelf.file("p").unwrap_or(b"?");
    assert!(rt; is_split(b"a\nb\nc\nd\n", one, other));
}

#[test]
fn a_load_is_balanced_by_workers(rt: HostRuntime) {
    for line in &[ONE, FOUR] {
        let called = call_by_workers(&rt, rt.alloc(), *line, BALANCED, &NoGate);
        check_balanced(&rt, &called.expect(&rt, "no call"));
    }
}

const ONE_KEPT: &[&str] = &["--workers", "1", "--journal", "kept", "net"];

const FOUR_KEPT: &[&str] = &["--workers", "4", "--journal", "kept", "net"];

/// A and W are the first step, B and V the second.
const STEPS: &[File<'static>] = &[
    (
        "net",
        b"flow 2\n'i' -> FILE A(ReadLines)\nA OUT -> IN W(WriteLines)\n'o' -> FILE W\nW *OUT -> *IN B(ReadLines)\n'j' -> FILE B\nB OUT -> IN V(WriteLines)\n'p' -> FILE V\n",
    ),
    ("i", b"x\n"),
    ("j", b"y\n"),
];

/// Whether the file of a journal has so many turns, and none of the first two processes behind one of the others.
fn has_steps(journal: &[u8], turns: usize) -> bool {
    let mut count: usize = 0;
    let mut is_second = false;
    for process in journal.iter().skip(16) {
        count = count.saturating_add(1);
        if *process >= 2 {
            is_second = true;
        } else if is_second {
            return false;
        }
    }
    count == turns
}

#[test]
fn a_second_step_begins_behind_the_first_by_workers(rt: HostRuntime) {
    for line in &[ONE_KEPT, FOUR_KEPT] {
        let called = call_by_workers(&rt, rt.alloc(), *line, STEPS, &NoGate);
        let called = called.expect(&rt, "no call");
        assert!(rt; has_steps(called.shelf.file("kept").unwrap_or(b""), 21));
    }
}
