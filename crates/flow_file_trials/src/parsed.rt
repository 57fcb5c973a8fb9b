// The words that are no names, and the versions.
use flow_parse::{FIRST_VERSION, RESERVED, SECOND_VERSION, THIRD_VERSION};
use std::test::Fail;

/// Code and definitions both cite these constants, so no contract refuses a word more or another version.
#[test]
fn five_words_are_no_names(rt: HostRuntime) -> Result<(), Fail> {
    let words: [&[u8]; 5] = RESERVED;
    assert!(rt; words[0] == b"flow".as_slice());
    assert!(rt; words[1] == b"subnet".as_slice());
    assert!(rt; words[2] == b"end".as_slice());
    assert!(rt; words[3] == b"inport".as_slice());
    assert!(rt; words[4] == b"outport".as_slice());
    assert!(rt; FIRST_VERSION == 1);
    assert!(rt; SECOND_VERSION == 2);
    assert!(rt; THIRD_VERSION == 3);
    Ok(())
}
