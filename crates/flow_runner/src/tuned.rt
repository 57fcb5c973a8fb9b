//! The numbers by which a run by workers is tuned. None of them decides what a run comes to: only when something is told, and who does it. How they were
//! found stands beside each.

/// The most turns that a worker makes of one process before it stamps them and tells the others of them. Of light turns so many take some 15 microseconds,
/// by reckoning.
pub(crate) const BURST_LIMIT: u32 = 256;

/// A burst is to last about so many microseconds at most: where turns are long, it has fewer of them. What a burst costs by itself, some 300 nanoseconds,
/// is little beside it.
pub(crate) const BURST_MICROS: u64 = 20;

/// Bursts get no shorter at a time than to this part of their length. A worker from which the system took its processor for a while looks as one whose
/// turns are long.
pub(crate) const SHORTENED_BY: u64 = 4;

/// Where nobody rests who could tell it how long its turns are, a worker makes twice as many turns a burst after so many bursts of one length. So does each
/// process, where it isn't seen to be slow: to 32 turns a burst, which is more than connections of ten packets let it make, it takes some 500.
pub(crate) const BURSTS_OF_A_LENGTH: u32 = 16;

/// A process of which no turn was made over a whole sleep, though it was tended, makes so many whole turns before its bursts get longer. Where it is light
/// after all, and the system had taken the processor from its worker, they cost some 50 microseconds, by reckoning: what the shortest sleep takes.
pub(crate) const TURNS_AFTER_A_SLOW_ONE: u64 = 1_024;

/// After so many turns of one process those are pushed whom they made ready. Were each pushed at once, another worker would claim it for a packet or two,
/// where the process that is held sends to several by turns. Between connections of ten packets one process makes so many turns, ten receives and ten sends,
/// before it is blocked: nobody waits longer for one that sends to several than for one that sends to one.
pub(crate) const PUSHED_AFTER: u32 = 20;

/// For so many of those whom it made ready a worker has places until it pushes them. A turn makes hardly more than one ready, so in `PUSHED_AFTER` turns they
/// aren't more; where they are, as behind a close of many connections, all are pushed sooner, which costs a worker more at the line and nothing else.
pub(crate) const UNPUSHED_PLACES: usize = 32;

/// The first sleep of a worker that finds nothing, in microseconds: about what the system takes to begin a sleep and to end it.
pub(crate) const SHORTEST_SLEEP: u64 = 50;

/// Its longest sleep, in microseconds. No process that becomes ready is left lying for longer because all others sleep. A worker that wakes so often to
/// find nothing takes some sixtieth of a processor, by reckoning: a sleep costs what the shortest one lasts.
pub(crate) const LONGEST_SLEEP: u64 = 3_200;

/// Where a burst has at most so many turns, those whom it made ready are worth waking a worker for: that takes some microseconds, and such turns ten.
pub(crate) const CALLS_UP_TO: u32 = 2;

/// Where a turn takes so many nanoseconds or more, others help without a trial. What crosses to another processor costs some two hundred.
pub(crate) const HEAVY_NANOS: u64 = 1_000;

/// Where it takes so many, whether help pays is tried. The turns of a chain that only passes packets on take some thirty, where the machine isn't busy.
pub(crate) const TRIED_NANOS: u64 = 45;

/// A trial is made of sleeps of so many microseconds. Shorter ones say too little: each lasts up to 60 microseconds longer than it is asked for.
pub(crate) const TRIAL_MICROS: u64 = 200;

/// Help pays where so many eighths of the turns are made with it that are made without. Less isn't worth the processors, and on a busy machine the same
/// worker is now faster and now slower by nearly as much.
pub(crate) const PAYING_EIGHTHS: u64 = 12;

/// A trial is given up where so many of its sleeps were cut short.
pub(crate) const CUT_SLEEPS: u32 = 8;

/// A run begins with so many sleeps before it tries anything: what begins is slower than what goes on.
pub(crate) const BEFORE_TRIALS: u64 = 2;

/// After a trial that failed the next one waits for so many sleeps, and then for twice as many each time, up to the greatest number.
pub(crate) const FIRST_PAUSE: u64 = 8;

pub(crate) const LONGEST_PAUSE: u64 = 1_024;

/// How many processes may be taken from others where that pays; twice as many each time that it is seen anew, up to the greatest number.
pub(crate) const FIRST_HELPS: u64 = 64;

pub(crate) const TRIED_HELPS: u64 = 16_384;

pub(crate) const MOST_HELPS: u64 = 65_536;
