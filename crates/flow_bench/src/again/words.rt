//! The words of the command line.
ghost use Rattle.flow_limits.specs.declared.TheConstants.{WORKER_LIMIT};
ghost use Rattle.std.specs.Prelude.{◌≤◌, IfSome};

use flow_limits::WORKER_LIMIT;

/// What the words ask for.
#[derive(Drop)]
pub struct Comparison<'a> {
    pub workers: u32,
    pub net: &'a str,
    pub input: &'a str,
}

/// What these words ask for, if they are a number of workers and the names of two files.
pub fn asked_by(words: &[String]) -> Option<Comparison<'_>>
    ensures { IfSome result (λ asked. (1 ≤ asked.workers) × (asked.workers ≤ WORKER_LIMIT)) }
{
    let [workers, net, input] = words else {
        return None;
    };
    let Ok(workers) = workers.as_str().parse::<u32>() else {
        return None;
    };
    if workers < 1 || workers > WORKER_LIMIT {
        return None;
    }
    Some(Comparison {
        workers,
        net: net.as_str(),
        input: input.as_str(),
    })
}
