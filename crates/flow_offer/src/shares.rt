//! Whether each process of a kind of the caller's own finds a part.

ghost use Rattle.std.specs.Prelude.{◌≡◌, ◌<◌, ◌≤◌, ◌↔◌, ℕ, length, IsTrue, MatchOption};
ghost use Rattle.std.specs.List.{count_by};
ghost use Rattle.std.specs.Str.{bytes_eq};
ghost use Rattle.flow_offer.specs.Shares.{earlier, FindsPart, IsFirstWithout};

use crate::processes::place_of;
use flow_plan::{KindSpec, Plan, Process};

// How many of these processes have a kind of this name.
fn count_of(processes: &[Process], name: &[u8]) -> usize
    ensures { result ≡ count_by (λ (process : Process). bytes_eq process.kind name.now) processes.now }
{
    processes
        .iter()
        .filter(|process| process.kind.as_slice() == name)
        .count()
}

fn finds_part(plan: &Plan, process: usize, own: &[KindSpec], counts: &[usize]) -> bool
    requires there { process < length plan.now.processes }
    requires counted { length counts.now ≡ length own.now }
    ensures { IsTrue result ↔ FindsPart own.now counts.now plan.now process }
{
    let processes = plan.processes();
    let kind = processes[process].kind.as_slice();
    match place_of(own, kind) {
        Some(place) => count_of(&processes[..process], kind) < counts[place],
        None => true,
    }
}

/// The first process of a kind of the caller's own that finds no part, where each of these kinds has as many parts
/// as `counts` says at its place; none exactly where each finds one. Takes no memory.
pub fn no_part(plan: &Plan, own: &[KindSpec], counts: &[usize]) -> Option<u32>
    requires { length counts.now ≡ length own.now }
    ensures { MatchOption result ((p : ℕ) → FindsPart own.now counts.now plan.now p) (λ p. IsFirstWithout own.now counts.now plan.now p) }
{
    for process in 0..plan.processes().len() {
        if !finds_part(plan, process, own, counts) {
            return Some(process as u32);
        }
    }
    None
}
