//! All workers of a floor, each in a thread of its own.
ghost use Rattle.flow_floor.specs.Floors.{HasReadZero, HasSameShare, IsCrewOf, IsIdleAt, IsNewWorker, process_count, turns_of};
ghost use Rattle.flow_limits.specs.declared.TheConstants.{PROCESS_LIMIT, WORKER_LIMIT};
ghost use Rattle.flow_runner.specs.Lines.{parts_of};
ghost use Rattle.flow_runner.specs.Posts.{posts_of, ArePassesAt, AreLinesFor, AreRoomFor, IsAtPosts, IsPosted, PushesEach, Watches, passes_in};
ghost use Rattle.flow_runner.specs.Serving.{HasDone, HasServed, workers_at};
ghost use Rattle.std.specs.Prelude.{◌≡◌, ◌+◌, ◌<◌, ◌≤◌, ℕ, All, IfErr, IfOk, IfSome, Option, [], length, map, vec_capacity};

use crate::line::{Line, LinePass};
use crate::lines::{Lines, Post};
use crate::paces::Pace;
use crate::posted::attend;
use crate::readied::push_surely;
use crate::server::Server;
use crate::watch::Watch;
use flow_component::{Component, Gate};
use flow_floor::{Floor, Worker};
use std::alloc::{AllocError, Global};
use std::sync::Wait;
use std::thread;
use std::thread::Threads;

/// The lines, and the room for the workers at them and for them when they have served.
struct LaidLines<K: Component> {
    lines: Lines,
    rows: Vec<Vec<LinePass>>,
    watches: Vec<Watch>,
    servers: Vec<Server<K>>,
    back: Vec<Worker<K>>,
}

/// Opens so many lines, with a pass of each.
fn open_lines(
    alloc: Global,
    processes: u32,
    workers: u32,
) -> Result<(Vec<Post>, Vec<LinePass>), AllocError>
    requires processes { (1 ≤ processes) × (processes ≤ PROCESS_LIMIT) }
    ensures room { IfOk result (λ r. AreRoomFor processes r.0.items) }
    ensures count { IfOk result (λ r. length r.0.items ≡ workers) }
    ensures passes { IfOk result (λ r. ArePassesAt r.0.items r.1.items) }
    ensures parts { IfOk result (λ r. All (λ p. parts_of p ≡ WORKER_LIMIT) r.1.items) }
{
    let mut posts = Vec::with_capacity(alloc, workers as usize)?;
    let mut firsts = Vec::with_capacity(alloc, workers as usize)?;
    for _line in 0..workers {
        let (line, mut passes) = Line::open(alloc, processes, 1)?;
        let Some(first) = passes.pop() else {
            unreachable!()
        };
        posts.push_reserved(Post::new(line));
        firsts.push_reserved(first);
    }
    Ok((posts, firsts))
}

/// A pass of each line, cut off these, each of which has a part less by that.
fn row_of(posts: &Vec<Post>, firsts: &mut Vec<LinePass>, mut row: Vec<LinePass>) -> Vec<LinePass>
    requires room { (row.items ≡ []) × (length posts.now.items ≤ vec_capacity row) }
    requires firsts { ArePassesAt posts.now.items firsts.old.items }
    requires parts { All (λ p. 2 ≤ parts_of p) firsts.old.items }
    ensures firsts { ArePassesAt posts.now.items firsts.new.items }
    ensures parts { (n : ℕ) → All (λ p. parts_of p ≡ n + 1) firsts.old.items → All (λ p. parts_of p ≡ n) firsts.new.items }
    ensures row { ArePassesAt posts.now.items result.items }
{
    for i in 0..posts.len() {
        row.push_reserved(posts[i].line.share(&mut firsts[i]));
    }
    row
}

/// A pass of each line for each worker.
fn rows_of(
    alloc: Global,
    posts: &Vec<Post>,
    mut firsts: Vec<LinePass>,
    workers: u32,
) -> Result<Vec<Vec<LinePass>>, AllocError>
    requires workers { (1 ≤ workers) × (workers ≤ WORKER_LIMIT) × (length posts.now.items ≡ workers) }
    requires firsts { ArePassesAt posts.now.items firsts.items }
    requires parts { All (λ p. parts_of p ≡ WORKER_LIMIT) firsts.items }
    ensures rows { IfOk result (λ rows. All (λ row. ArePassesAt posts.now.items row.items) rows.items) }
    ensures count { IfOk result (λ rows. length rows.items ≡ workers) }
{
    let mut rows = Vec::with_capacity(alloc, workers as usize)?;
    for _worker in 1..workers {
        let row = Vec::with_capacity(alloc, workers as usize)?;
        rows.push_reserved(row_of(posts, &mut firsts, row));
    }
    rows.push_reserved(firsts);
    Ok(rows)
}

/// A watch for each worker.
fn watches_for(alloc: Global, workers: u32) -> Result<Vec<Watch>, AllocError>
    ensures each { IfOk result (λ watches. All (λ watch. (watch.number < workers) × (length watch.seen.items ≡ workers)) watches.items) }
    ensures count { IfOk result (λ watches. length watches.items ≡ workers) }
{
    let mut watches = Vec::with_capacity(alloc, workers as usize)?;
    for number in 0..workers {
        watches.push_reserved(Watch::new(alloc, number as usize, workers as usize)?);
    }
    Ok(watches)
}

/// A pace for each process.
fn paces_for(alloc: Global, processes: u32) -> Result<Vec<Pace>, AllocError> {
    let mut paces = Vec::with_capacity(alloc, processes as usize)?;
    for _process in 0..processes {
        paces.push(Pace::new())?;
    }
    Ok(paces)
}

/// Takes all that the workers need.
fn lay<K: Component>(
    alloc: Global,
    processes: u32,
    workers: u32,
) -> Result<LaidLines<K>, AllocError>
    requires processes { (1 ≤ processes) × (processes ≤ PROCESS_LIMIT) }
    requires workers { (1 ≤ workers) × (workers ≤ WORKER_LIMIT) }
    ensures room { IfOk result (λ l. AreRoomFor processes (posts_of l.lines)) }
    ensures count { IfOk result (λ l. length (posts_of l.lines) ≡ workers) }
    ensures rows { IfOk result (λ l. All (λ row. ArePassesAt (posts_of l.lines) row.items) l.rows.items × (length l.rows.items ≡ workers)) }
    ensures watches { IfOk result (λ l. All (Watches (posts_of l.lines)) l.watches.items × (length l.watches.items ≡ workers)) }
    ensures servers { IfOk result (λ l. (l.servers.items ≡ []) × (workers ≤ vec_capacity l.servers)) }
    ensures back { IfOk result (λ l. (l.back.items ≡ []) × (workers ≤ vec_capacity l.back)) }
{
    let servers = Vec::with_capacity(alloc, workers as usize)?;
    let back = Vec::with_capacity(alloc, workers as usize)?;
    let watches = watches_for(alloc, workers)?;
    let paces = paces_for(alloc, processes)?;
    let (posts, firsts) = open_lines(alloc, processes, workers)?;
    let rows = rows_of(alloc, &posts, firsts, workers)?;
    Ok(LaidLines {
        lines: Lines::new(posts, paces),
        rows,
        watches,
        servers,
        back,
    })
}

/// Gives each worker a pass of each line, and a watch.
fn with_passes<K: Component>(
    lines: &Lines,
    crew: Vec<Worker<K>>,
    mut rows: Vec<Vec<LinePass>>,
    mut watches: Vec<Watch>,
    mut servers: Vec<Server<K>>,
) -> Vec<Server<K>>
    requires rows { All (λ row. ArePassesAt (posts_of lines.now) row.items) rows.items × (length rows.items ≡ length crew.items) }
    requires watches { All (Watches (posts_of lines.now)) watches.items × (length watches.items ≡ length crew.items) }
    requires room { (servers.items ≡ []) × (length crew.items ≤ vec_capacity servers) }
    ensures workers { workers_at result.items ≡ crew.items }
    ensures posted { All (IsPosted (posts_of lines.now)) result.items }
{
    let _ = lines;
    let mut left = crew.into_iter();
    while let Some(worker) = left.next() {
        let Some(passes) = rows.pop() else {
            unreachable!()
        };
        let Some(watch) = watches.pop() else {
            unreachable!()
        };
        servers.push_reserved(Server {
            worker,
            passes,
            watch,
        });
    }
    servers
}

/// Takes the passes from them again.
fn without_passes<K: Component>(servers: Vec<Server<K>>, mut crew: Vec<Worker<K>>) -> Vec<Worker<K>>
    requires room { (crew.items ≡ []) × (length servers.items ≤ vec_capacity crew) }
    ensures { result.items ≡ workers_at servers.items }
{
    let mut left = servers.into_iter();
    while let Some(server) = left.next() {
        let Server {
            worker,
            passes: _,
            watch: _,
        } = server;
        crew.push_reserved(worker);
    }
    crew
}

/// The line at which the process begins: that of its number, or the first where there is no such line.
fn first_line(begins: &[u32], process: u32, workers: usize) -> usize
    requires { 1 ≤ workers }
    ensures { result < workers }
{
    let process = process as usize;
    if process < begins.len() && (begins[process] as usize) < workers {
        begins[process] as usize
    } else {
        0
    }
}

/// Puts all processes into the lines, which are new, in the order of their numbers, by these passes of them.
fn fill<R: Wait>(rt: &R, lines: &Lines, passes: &mut Vec<LinePass>, begins: &[u32], processes: u32)
    requires some { 1 ≤ length (posts_of lines.now) }
    requires room { AreRoomFor processes (posts_of lines.now) }
    requires passes { ArePassesAt (posts_of lines.now) passes.old.items }
    ensures passes { ArePassesAt (posts_of lines.now) passes.new.items }
    ensures pushed { PushesEach processes passes.old.items passes.new.items }
{
    for process in 0..processes {
        let at = first_line(begins, process, lines.posts.len());
        push_surely(rt, &lines.posts[at].line, &mut passes[at], process);
    }
}

/// Fills the lines by the passes of the last row.
fn filled<R: Wait>(
    rt: &R,
    lines: &Lines,
    mut rows: Vec<Vec<LinePass>>,
    begins: &[u32],
    processes: u32,
) -> Vec<Vec<LinePass>>
    requires some { 1 ≤ length (posts_of lines.now) }
    requires room { AreRoomFor processes (posts_of lines.now) }
    requires rows { All (λ row. ArePassesAt (posts_of lines.now) row.items) rows.items }
    requires last { 1 ≤ length rows.items }
    ensures rows { All (λ row. ArePassesAt (posts_of lines.now) row.items) result.items }
    ensures count { length result.items ≡ length rows.items }
    ensures pushed { PushesEach processes (passes_in (map (λ row. row.items) rows.items)) (passes_in (map (λ row. row.items) result.items)) }
{
    let Some(mut last) = rows.pop() else {
        unreachable!()
    };
    fill(rt, lines, &mut last, begins, processes);
    rows.push_reserved(last);
    rows
}

/// Has each worker serve the lines in a thread of its own.
fn serve_all<K: Component + Send, G: Gate + Sync, R: Threads + Wait + Sync>(
    rt: &R,
    floor: &Floor<K>,
    lines: &Lines,
    servers: &mut [Server<K>],
    workers: u32,
    gate: &G,
    budget: Option<u64>,
)
    requires least { 1 ≤ workers }
    requires lines { AreLinesFor floor.now (posts_of lines.now) }
    requires budget { IfSome budget (λ turns. 1 ≤ turns) }
    requires each { All (IsAtPosts floor.now (posts_of lines.now)) servers.old }
    requires crew { IsCrewOf floor.now (workers_at servers.old) }
    requires new { All IsNewWorker (workers_at servers.old) }
    ensures crew { IsCrewOf floor.now (workers_at servers.new) × (length servers.new ≡ length servers.old) }
    ensures done { All (HasDone budget) (workers_at servers.new) }
{
    thread::for_each_mut(
        rt,
        servers,
        workers as usize,
        &|number: usize, server: &mut Server<K>|
            requires at { IsAtPosts floor.now (posts_of lines.now) server.old }
            requires lines { AreLinesFor floor.now (posts_of lines.now) }
            requires budget { IfSome budget (λ turns. 1 ≤ turns) }
            ensures idle { IsIdleAt floor.entry.now server.new.worker }
            ensures share { HasSameShare server.old.worker server.new.worker }
            ensures served { HasServed budget server.old.worker server.new.worker }
        { attend(rt, floor, lines, server, gate, budget) },
    );
}

/// Waits until the worker reads 0.
fn await_end<K: Component, R: Wait>(rt: &R, floor: &Floor<K>, worker: &mut Worker<K>)
    requires idle { IsIdleAt floor.now worker.old }
    ensures idle { IsIdleAt floor.now worker.new }
    ensures share { HasSameShare worker.old worker.new }
    ensures zero { HasReadZero worker.new }
    ensures made { turns_of worker.new ≡ turns_of worker.old }
{
    for _ in rt.forever() {
        if floor.live(worker) == 0 {
            return;
        }
    }
    unreachable!()
}

/// Has each worker wait for the end in a thread of its own.
fn await_all<K: Component + Send, R: Threads + Wait + Sync>(
    rt: &R,
    floor: &Floor<K>,
    crew: &mut [Worker<K>],
    workers: u32,
)
    requires least { 1 ≤ workers }
    requires crew { IsCrewOf floor.now crew.old }
    requires new { All IsNewWorker crew.old }
    ensures crew { IsCrewOf floor.now crew.new × (length crew.new ≡ length crew.old) }
    ensures done { (budget : Option ℕ) → All (HasDone budget) crew.new }
{
    thread::for_each_mut(
        rt,
        crew,
        workers as usize,
        &|number: usize, worker: &mut Worker<K>|
            requires { IsIdleAt floor.now worker.old }
            ensures idle { IsIdleAt floor.entry.now worker.new }
            ensures share { HasSameShare worker.old worker.new }
            ensures zero { HasReadZero worker.new }
            ensures made { turns_of worker.new ≡ turns_of worker.old }
        { await_end(rt, floor, worker) },
    );
}

/// Has these new workers serve a line at which all processes stand. Without memory for it they come back as they were.
fn serve_line<K: Component + Send, G: Gate + Sync, R: Threads + Wait + Sync>(
    rt: &R,
    alloc: Global,
    floor: &Floor<K>,
    crew: Vec<Worker<K>>,
    workers: u32,
    begins: &[u32],
    gate: &G,
    budget: Option<u64>,
) -> Result<Vec<Worker<K>>, Vec<Worker<K>>>
    requires least { 1 ≤ workers }
    requires most { workers ≤ WORKER_LIMIT }
    requires some { 1 ≤ process_count floor.now }
    requires crew { IsCrewOf floor.now crew.items × (length crew.items ≡ workers) }
    requires new { All IsNewWorker crew.items }
    requires budget { IfSome budget (λ turns. 1 ≤ turns) }
    ensures crew { IfOk result (λ ws. IsCrewOf floor.now ws.items × (length ws.items ≡ workers)) }
    ensures done { IfOk result (λ ws. All (HasDone budget) ws.items) }
    ensures refused { IfErr result (λ ws. IsCrewOf floor.now ws.items) }
{
    let processes = floor.processes() as u32;
    let Ok(laid) = lay(alloc, processes, workers) else {
        return Err(crew);
    };
    let LaidLines {
        lines,
        rows,
        watches,
        servers,
        back,
    } = laid;
    let rows = filled(rt, &lines, rows, begins, processes);
    let mut servers = with_passes(&lines, crew, rows, watches, servers);
    serve_all(
        rt,
        floor,
        &lines,
        servers.as_mut_slice(),
        workers,
        gate,
        budget,
    );
    Ok(without_passes(servers, back))
}

/// Has these new workers make turns, each in a thread of its own, until each has made as many as the budget says, or has read 0. Where there is no
/// process there is no line. Without memory for it they come back as they were.
pub(crate) fn make_turns<K: Component + Send, G: Gate + Sync, R: Threads + Wait + Sync>(
    rt: &R,
    alloc: Global,
    floor: &Floor<K>,
    mut crew: Vec<Worker<K>>,
    workers: u32,
    begins: &[u32],
    gate: &G,
    budget: Option<u64>,
) -> Result<Vec<Worker<K>>, Vec<Worker<K>>>
    requires least { 1 ≤ workers }
    requires most { workers ≤ WORKER_LIMIT }
    requires crew { IsCrewOf floor.now crew.items × (length crew.items ≡ workers) }
    requires new { All IsNewWorker crew.items }
    requires budget { IfSome budget (λ turns. 1 ≤ turns) }
    ensures crew { IfOk result (λ ws. IsCrewOf floor.now ws.items × (length ws.items ≡ workers)) }
    ensures done { IfOk result (λ ws. All (HasDone budget) ws.items) }
    ensures refused { IfErr result (λ ws. IsCrewOf floor.now ws.items) }
{
    if floor.processes() == 0 {
        await_all(rt, floor, crew.as_mut_slice(), workers);
        return Ok(crew);
    }
    serve_line(rt, alloc, floor, crew, workers, begins, gate, budget)
}
