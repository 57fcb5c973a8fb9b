// Texts that are refused, and their neighbours.
use crate::calls::{Call, CallRow, check_begun};

const SIZES: &[CallRow] = &[
    (Call::Give(b"0", (b"S", b"SIZE", None)), "bad option"),
    (Call::Give(b"1048577", (b"S", b"SIZE", None)), "bad option"),
    (Call::Give(b"012", (b"S", b"SIZE", None)), "bad option"),
    (Call::Give(b"12 ", (b"S", b"SIZE", None)), "bad option"),
    (Call::Give(b"", (b"S", b"SIZE", None)), "bad option"),
    (Call::Give(b"1048576", (b"S", b"SIZE", None)), "accepted"),
    (Call::Give(b"1", (b"S", b"SIZE", None)), "port taken"),
];

#[test]
fn an_option_takes_a_text_of_its_class_once(rt: HostRuntime) {
    check_begun(&rt, rt.alloc(), SIZES);
}

const INPUTS: &[CallRow] = &[
    (Call::Give(b"", (b"X", b"IN", None)), "unknown process"),
    (Call::Give(b"", (b"S", b"NONE", None)), "unknown port"),
    (Call::Give(b"", (b"S", b"OUT", None)), "unknown port"),
    (Call::Give(b"", (b"S", b"IN", None)), "accepted"),
    (Call::Give(b"", (b"S", b"IN", None)), "port taken"),
];

#[test]
fn a_text_is_for_an_input_that_is_there(rt: HostRuntime) {
    check_begun(&rt, rt.alloc(), INPUTS);
}

const TEXT_FIRST: &[CallRow] = &[
    (Call::Give(b"a", (b"T", b"IN", None)), "accepted"),
    (
        Call::Connect((b"S", b"OUT", Some(0)), None, (b"T", b"IN", Some(0))),
        "port taken",
    ),
    (
        Call::Connect((b"S", b"OUT", Some(0)), None, (b"T", b"IN", Some(1))),
        "accepted",
    ),
];

#[test]
fn an_input_with_a_text_takes_no_connection(rt: HostRuntime) {
    check_begun(&rt, rt.alloc(), TEXT_FIRST);
}

const CONNECTION_FIRST: &[CallRow] = &[
    (
        Call::Connect((b"S", b"OUT", Some(0)), None, (b"T", b"IN", Some(0))),
        "accepted",
    ),
    (Call::Give(b"a", (b"T", b"IN", None)), "port taken"),
];

#[test]
fn a_connected_input_takes_no_text(rt: HostRuntime) {
    check_begun(&rt, rt.alloc(), CONNECTION_FIRST);
}
