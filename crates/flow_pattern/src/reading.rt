//! How a pattern is read.

ghost use Rattle.flow_limits.specs.declared.TheConstants.{PATTERN_LIMIT};
ghost use Rattle.std.specs.Prelude.{◌≡◌, ◌↔◌, ◌<◌, ◌≤◌, length, vec_len, map, option_map, string_bytes, IfErr, IfOk, IfNone, IfSome, IsTrue};
ghost use Rattle.regex.specs.Names.{names_of};
ghost use Rattle.regex.specs.Patterns.{Reads};
ghost use Rattle.regex_syntax.specs.WellFormed.{IsWellFormed};
ghost use Rattle.flow_pattern.specs.Pattern.{pattern_options, IsPattern, group_names};

use crate::finder::{Uncompiled, means_for, means_of};
use flow_limits::PATTERN_LIMIT;
use regex_syntax::{Config, Error, ErrorKind, Parsed, parse};
use std::alloc::{AllocError, Global};
use std::str;

/// Where a text stops being a pattern, in bytes from its beginning, and what is wrong there.
#[derive(Clone, Copy, Debug, PartialEq, Eq)]
pub struct Slip {
    pub place: usize,
    pub why: &'static str,
}

// The options with which a pattern is read.
fn options() -> Config
    ensures { result ≡ pattern_options }
{
    Config {
        utf8: false,
        ..Config::default()
    }
}

// Reads a pattern, or tells where the text isn't one.
pub(crate) fn read(alloc: Global, source: &str) -> Result<Result<Parsed, Error>, AllocError>
    requires short { length source.now ≤ PATTERN_LIMIT }
    ensures none { IfOk result (λ read. IfErr read (λ e. IsPattern source.now → ⊥)) }
    ensures place { IfOk result (λ read. IfErr read (λ e. e.span.start ≤ length source.now)) }
    ensures some { IfOk result (λ read. IfOk read (λ p. IsPattern source.now)) }
    ensures reads { IfOk result (λ read. IfOk read (λ p. Reads pattern_options source.now p.hir (map (option_map string_bytes) p.names.items))) }
    ensures formed { IfOk result (λ read. IfOk read (λ p. IsWellFormed pattern_options.utf8 p.hir)) }
    ensures names { IfOk result (λ read. IfOk read (λ p. names_of p.names.items ≡ group_names source.now)) }
    ensures group_zero { IfOk result (λ read. IfOk read (λ p. 0 < vec_len p.names)) }
{
    match parse(alloc, source, &options()) {
        Ok(parsed) => Ok(Ok(parsed)),
        Err(error) => match error.kind {
            ErrorKind::OutOfMemory => Err(AllocError),
            _ => Ok(Err(error)),
        },
    }
}

// The names of a pattern's groups, where they have some, by their numbers.
pub(crate) fn names_in(alloc: Global, pattern: &[u8]) -> Result<Vec<Option<String>>, AllocError>
    requires pattern { IsPattern pattern.now }
    ensures names { IfOk result (λ names. names_of names.items ≡ group_names pattern.now) }
    ensures numbered { IfOk result (λ names. 0 < vec_len names) }
{
    let Ok(source) = str::from_utf8(pattern) else {
        unreachable!()
    };
    let Ok(Parsed { hir: _hir, names }) = read(alloc, source)? else {
        unreachable!()
    };
    Ok(names)
}

/// Where a text stops being a pattern; none where it is one. Reading it takes memory.
pub fn slip_in(alloc: Global, text: &[u8]) -> Result<Option<Slip>, AllocError>
    ensures none { IfOk result (λ slip. IfNone slip (IsPattern text.now)) }
    ensures some { IfOk result (λ slip. IfSome slip (λ s. IsPattern text.now → ⊥)) }
    ensures place { IfOk result (λ slip. IfSome slip (λ s. s.place ≤ length text.now)) }
{
    if text.len() > PATTERN_LIMIT {
        return Ok(Some(Slip {
            place: PATTERN_LIMIT,
            why: "a pattern has at most 65,536 bytes",
        }));
    }
    let source = match str::from_utf8(text) {
        Ok(source) => source,
        Err(fault) => {
            return Ok(Some(Slip {
                place: fault.valid_up_to(),
                why: "no letter in UTF-8",
            }));
        }
    };
    let fault = read(alloc, source)?.err();
    match fault {
        None => Ok(None),
        Some(error) => Ok(Some(Slip {
            place: error.span.start,
            why: error.kind.message(),
        })),
    }
}

/// Whether a text is a pattern. Reading it takes memory; and it is compiled, so that one whose program would take more
/// than some 10 MiB finds no memory here already.
pub fn is_pattern(alloc: Global, text: &[u8]) -> Result<bool, AllocError>
    ensures { IfOk result (λ is. IsTrue is ↔ IsPattern text.now) }
{
    if slip_in(alloc, text)?.is_some() {
        return Ok(false);
    }
    let _means = means_of(alloc, text)?;
    Ok(true)
}

/// Whether a text is a pattern whose program would take more than it may. For whoever tells why memory was wanting.
pub fn is_too_large(alloc: Global, text: &[u8]) -> Result<bool, AllocError> {
    if slip_in(alloc, text)?.is_some() {
        return Ok(false);
    }
    match str::from_utf8(text) {
        Ok(source) => is_source_too_large(alloc, source),
        Err(_) => Ok(false),
    }
}

fn is_source_too_large(alloc: Global, source: &str) -> Result<bool, AllocError>
    requires { IsPattern source.now }
{
    match means_for(alloc, source) {
        Ok(_) => Ok(false),
        Err(Uncompiled::TooLarge) => Ok(true),
        Err(Uncompiled::NoMemory) => Err(AllocError),
    }
}
