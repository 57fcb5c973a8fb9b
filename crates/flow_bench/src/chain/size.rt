//! How large a chain is.
ghost use Rattle.std.specs.Prelude.{◌≤◌, ℕ, IfSome};

/// The most lines that the reader of a chain may have.
pub const LINE_LIMIT: u32 = 1_048_576;

/// How many processes pass lines on, and how many lines the reader has.
#[derive(Clone, Copy, Debug, PartialEq, Eq)]
pub struct ChainSize {
    pub passers: u32,
    pub lines: u32,
}

// The number that a word names, if it lies between these.
fn number(word: &str, least: u32, most: u32) -> Option<u32>
    ensures least { IfSome result (λ number. least ≤ number) }
    ensures most { IfSome result (λ number. number ≤ most) }
{
    match word.parse::<u32>() {
        Ok(number) if least <= number && number <= most => Some(number),
        _ => None,
    }
}

impl ChainSize {
    ghost use Rattle.flow_bench.specs.ChainSizes.{IsSize};

    /// The size that two words name: from 1 to 100 passers, and at most `LINE_LIMIT` lines.
    pub fn named(words: &[String]) -> Option<ChainSize>
        ensures { IfSome result IsSize }
    {
        match words {
            [passers, lines] => Some(ChainSize {
                passers: number(passers, 1, 100)?,
                lines: number(lines, 0, LINE_LIMIT)?,
            }),
            _ => None,
        }
    }
}
