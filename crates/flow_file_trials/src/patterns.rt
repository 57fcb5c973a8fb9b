//! What a pattern and a new text may be at most, and what is found once an automaton has given up. (What is found and replaced rows tell.)

use flow_pattern::{Finder, Replacer, Rewritten, is_pattern, slip_in};
use std::alloc::{AllocError, Global};
use std::process::Abort;
use std::test::Fail;

// Whether this is the new text.
fn is_new(rewritten: &Rewritten, wanted: &[u8]) -> bool {
    match rewritten {
        Rewritten::New(text) => text.as_slice() == wanted,
        _ => false,
    }
}

// So many times this byte.
fn repeated(alloc: Global, byte: u8, count: usize) -> Result<Vec<u8>, AllocError> {
    vec![in alloc; byte; count]
}

// What replaces each a.
fn replacer(rt: &impl Abort, alloc: Global, with: &[u8]) -> Result<Replacer, AllocError> {
    let is = is_pattern(alloc, b"a")?;
    assert!(rt; is);
    Replacer::new(alloc, b"a", with)
}

#[test]
fn a_text_may_be_as_long_as_it_may(rt: HostRuntime) -> Result<(), Fail> {
    let mut replacer = replacer(&rt, rt.alloc(), b"12345")?;
    let new = replacer
        .replaced(rt.alloc(), b"-aa-", 12)
        .expect(&rt, "no memory");
    assert!(rt; is_new(&new, b"-1234512345-"));
    let longer = replacer
        .replaced(rt.alloc(), b"-aa-", 11)
        .expect(&rt, "no memory");
    assert!(rt; matches!(longer, Rewritten::TooLong(12)));
    Ok(())
}

#[test]
fn of_a_longer_text_the_bytes_are_counted(rt: HostRuntime) -> Result<(), Fail> {
    let text = repeated(rt.alloc(), b'a', 1000).expect(&rt, "no memory");
    let with = repeated(rt.alloc(), b'y', 1_000_000).expect(&rt, "no memory");
    let mut replacer = replacer(&rt, rt.alloc(), &with).expect(&rt, "no memory");
    let longer = replacer
        .replaced(rt.alloc(), &text, 1_048_576)
        .expect(&rt, "no memory");
    assert!(rt; matches!(longer, Rewritten::TooLong(1_000_000_000)));
    Ok(())
}

#[test]
fn a_pattern_has_at_most_65536_bytes(rt: HostRuntime) -> Result<(), Fail> {
    let longest = repeated(rt.alloc(), b'a', 65_536)?;
    assert!(rt; is_pattern(rt.alloc(), &longest)?);
    let longer = repeated(rt.alloc(), b'a', 65_537)?;
    assert!(rt; !is_pattern(rt.alloc(), &longer)?);
    let slip = slip_in(rt.alloc(), &longer)?;
    let slip = slip.expect(&rt, "it is too long");
    assert!(rt; slip.place == 65_536);
    assert!(rt; slip.why == "a pattern has at most 65,536 bytes");
    Ok(())
}

// Lines of the letters a and b, made from a number.
fn lines_of_two(alloc: Global, number: u64, count: usize) -> Result<Vec<u8>, AllocError> {
    let mut text = Vec::new(alloc);
    let mut seed = number;
    for _ in 0..count {
        seed = seed
            .wrapping_mul(6_364_136_223_846_793_005)
            .wrapping_add(1_442_695_040_888_963_407);
        text.push(if seed >> 63 == 0 { b'a' } else { b'b' })?;
    }
    Ok(text)
}

// Whether the text has an a, and twenty bytes behind it a b.
fn has_both(text: &[u8]) -> bool {
    text.windows(21)
        .any(|part| part[0] == b'a' && part[20] == b'b')
}

// Whether it is found in the lines that are made from a number just where it stands.
fn is_found(alloc: Global, finder: &mut Finder, number: u64) -> Result<bool, AllocError> {
    let text = lines_of_two(alloc, number, 22 + (number % 9) as usize)?;
    let found = finder.matches(alloc, &text)?;
    Ok(found == has_both(&text))
}

// Its automaton would have a million states, so that it gives up; what is found is the same from then on.
#[test]
fn a_pattern_is_found_by_steps(rt: HostRuntime) -> Result<(), Fail> {
    let pattern = b"a[ab]{19}b";
    let is = is_pattern(rt.alloc(), pattern)?;
    assert!(rt; is);
    let mut finder = Finder::new(rt.alloc(), pattern)?;
    for number in 0..3000 {
        assert!(rt; is_found(rt.alloc(), &mut finder, number)?, "of {number}");
    }
    Ok(())
}
