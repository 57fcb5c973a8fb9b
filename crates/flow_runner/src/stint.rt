//! How a worker goes on with the process that it holds.
ghost use Rattle.flow_runner.specs.Posts.{posts_of};
ghost use Rattle.std.specs.Prelude.{◌≡◌, ◌+◌, ◌<◌, ◌≤◌, length};

use crate::lines::{Lines, Post};
use crate::paces::Pace;
use crate::tuned::{BURST_LIMIT, BURSTS_OF_A_LENGTH, CALLS_UP_TO};

/// Where a worker that isn't alone tells how many turns it made, and is told how many of them its bursts have.
#[derive(Clone, Copy)]
pub(crate) struct Home<'a> {
    post: &'a Post,
    lines: &'a Lines,
}

/// The turns that a worker may still make, and how many of them in one burst.
#[derive(Drop)]
pub(crate) struct Stint<'a> {
    pub(crate) left: u64,
    /// How many turns a burst has at most.
    pub(crate) burst: u32,
    /// How many bursts of that length there were.
    bursts: u32,
    /// How many turns were made.
    turns: u64,
    home: Option<Home<'a>>,
    /// That of the process which is tended.
    pace: Option<&'a Pace>,
    pub ghost least: { 1 ≤ burst },
}

/// As many turns as the bursts of this worker are to have, or as they have where nobody tells it.
fn told(home: Option<Home<'_>>, burst: u32) -> u32
    requires { 1 ≤ burst }
    ensures { 1 ≤ result }
{
    match home {
        Some(home) => home.post.burst(),
        None => burst,
    }
}

/// As many turns as a burst of this pace may have.
fn paced(pace: Option<&Pace>) -> u32
    ensures { 1 ≤ result }
{
    match pace {
        Some(pace) => pace.burst(),
        None => BURST_LIMIT,
    }
}

impl<'a> Stint<'a> {
    /// A worker that nobody tells anything: so many turns, in bursts that are as long as can be.
    pub(crate) fn alone(left: u64) -> Stint<'a>
        ensures { result.left ≡ left }
    {
        Stint {
            left,
            burst: BURST_LIMIT,
            bursts: 0,
            turns: 0,
            home: None,
            pace: None,
        }
    }

    /// A worker at the post of this number: where there are several, its bursts are as long as it is told there, and as the processes may make them.
    pub(crate) fn among(left: u64, lines: &'a Lines, number: usize) -> Stint<'a>
        requires { number < length (posts_of lines.now) }
        ensures { result.left ≡ left }
    {
        if lines.posts.len() < 2 {
            return Stint::alone(left);
        }
        let post = &lines.posts[number];
        Stint {
            left,
            burst: 1,
            bursts: 0,
            turns: 0,
            home: Some(Home { post, lines }),
            pace: None,
        }
    }

    /// This process is tended from now on.
    pub(crate) fn tends(&mut self, process: u32)
        ensures { self.new.left ≡ self.old.left }
    {
        if let Some(home) = self.home {
            self.pace = home.lines.pace(process as u64);
        }
    }

    /// How many turns the next burst may have.
    pub(crate) fn next(&mut self) -> u32
        requires { 1 ≤ self.old.left }
        ensures least { 1 ≤ result }
        ensures most { result ≤ self.new.left }
        ensures left { self.new.left ≡ self.old.left }
    {
        self.burst = told(self.home, self.burst).min(paced(self.pace));
        self.left.min(self.burst as u64) as u32
    }

    /// Where nobody rests who could tell how long bursts should be, and that was so for a while, they are twice as long from now on.
    fn lengthens(&mut self, home: Home<'a>)
        ensures { self.new.left ≡ self.old.left }
    {
        self.bursts = self.bursts.saturating_add(1);
        if self.bursts < BURSTS_OF_A_LENGTH {
            return;
        }
        self.bursts = 0;
        let burst = home.post.burst();
        if burst < BURST_LIMIT && !home.lines.bell.somebody_sleeps() {
            home.post.set_burst(burst as u64 * 2);
        }
    }

    /// So many turns were made in a burst; and by it somebody was pushed, or nobody. Where turns are long, one who rests is called to those.
    pub(crate) fn made(&mut self, count: u32, pushed: bool)
        requires { count ≤ self.old.left }
        ensures { self.new.left + count ≡ self.old.left }
    {
        self.left -= count as u64;
        let Some(home) = self.home else {
            return;
        };
        self.turns = self.turns.wrapping_add(count as u64);
        home.post.set_turns(self.turns);
        if let Some(pace) = self.pace {
            pace.made(count);
        }
        if pushed && self.burst <= CALLS_UP_TO {
            home.lines.call();
        }
        self.lengthens(home);
    }
}
