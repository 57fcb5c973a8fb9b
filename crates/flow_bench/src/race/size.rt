//! How large a race is.
ghost use Rattle.std.specs.Prelude.{◌≤◌, ℕ, IfSome};

use flow_limits::WORKER_LIMIT;

/// The most packets of a branch.
pub const PACKET_LIMIT: u32 = 1_048_576;

/// The most rounds of work on a packet.
pub const ROUND_LIMIT: u32 = 1_000_000;

/// How many workers run the network, how many packets each branch has, and how many rounds of work each process does on a packet.
#[derive(Clone, Copy, Debug, PartialEq, Eq)]
pub struct RaceSize {
    /// 0 stands for one thread without a floor.
    pub workers: u32,
    pub packets: u32,
    pub rounds: u32,
}

// The number that a word names, if it isn't above this one.
fn number(word: &str, most: u32) -> Option<u32>
    ensures { IfSome result (λ number. number ≤ most) }
{
    match word.parse::<u32>() {
        Ok(number) if number <= most => Some(number),
        _ => None,
    }
}

impl RaceSize {
    ghost use Rattle.flow_bench.specs.RaceSizes.{IsSize};

    /// The size that three words name.
    pub fn named(words: &[String]) -> Option<RaceSize>
        ensures { IfSome result IsSize }
    {
        match words {
            [workers, packets, rounds] => Some(RaceSize {
                workers: number(workers, WORKER_LIMIT)?,
                packets: number(packets, PACKET_LIMIT)?,
                rounds: number(rounds, ROUND_LIMIT)?,
            }),
            _ => None,
        }
    }
}
