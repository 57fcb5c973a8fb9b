//! Rows of trials that stand in files: each makes calls over files in memory, and says what has to come of them. The
//! files are named by the program's words, and lie in `data/`, beside each other by subject; `docs/ROWS.md` has their
//! format. The program prints how many rows of each file passed, and for each row that differs what was wanted and what
//! came. It is a trial's helper, and promises nobody anything; each of its functions is proved: it is safe, and it ends.
#![tactic(auto)]

mod around;
mod bytes;
mod calls;
mod came;
mod course;
mod page;
mod said;
mod shown;
mod wants;

use crate::course::Course;
use crate::page::{RowFile, Step};
use std::alloc::{AllocError, Global};
use std::process::ExitCode;
use std::rt::{Env, Files};
use std::sync::Wait;
use std::thread::Threads;
use std::{env, fs, io};

/// The status where a row differs.
const DIFFERS: u8 = 1;

/// The status where a file of rows can't be read or a line printed, or where there is no memory.
const STOPPED: u8 = 2;

/// How many rows there are, and how many of them passed.
#[derive(Clone, Copy)]
struct RowCount {
    rows: u64,
    passed: u64,
}

impl RowCount {
    const NONE: RowCount = RowCount { rows: 0, passed: 0 };

    fn add(&mut self, more: RowCount) {
        self.rows = self.rows.saturating_add(more.rows);
        self.passed = self.passed.saturating_add(more.passed);
    }
}

fn follow_all<R: Threads + Wait + Sync>(
    rt: &R,
    course: &mut Course,
    steps: &[Step],
) -> Result<(), AllocError> {
    for step in steps {
        course.follow(rt, step)?;
    }
    Ok(())
}

/// What differs in a row, line by line, and nothing where all is as it is wanted.
fn differences<R: Threads + Wait + Sync>(
    rt: &R,
    alloc: Global,
    common: &[Step],
    steps: &[Step],
) -> Result<String, AllocError> {
    let mut course = Course::new(alloc);
    follow_all(rt, &mut course, common)?;
    follow_all(rt, &mut course, steps)?;
    course.told()
}

/// Goes through the rows of a file, and tells of each that differs.
fn run_page<R: Print + Threads + Wait + Sync>(
    rt: &R,
    alloc: Global,
    name: &str,
    page: &RowFile,
) -> io::Result<RowCount> {
    let mut count = RowCount::NONE;
    for row in &page.rows {
        let told = differences(rt, alloc, &page.common, &row.steps)?;
        let passed = if told.is_empty() { 1 } else { 0 };
        count.add(RowCount { rows: 1, passed });
        if !told.is_empty() {
            print!(rt; "{name}: {}\n{told}", row.name)?;
        }
    }
    Ok(count)
}

/// Goes through the rows of the file of a name, and tells how many passed.
fn run_file<R: Print + Files + AllocGlobal + Threads + Wait + Sync>(
    rt: &R,
    name: &str,
) -> io::Result<RowCount> {
    let text = fs::read_to_string(rt, name)?;
    let page = RowFile::of(rt.alloc(), &text)?;
    let count = run_page(rt, rt.alloc(), name, &page)?;
    let RowCount { rows, passed } = count;
    println!(rt; "{name}: {passed} of {rows} rows")?;
    Ok(count)
}

/// Goes through the files that are named.
fn run_pages<R: Print + Files + AllocGlobal + Threads + Wait + Sync>(
    rt: &R,
    names: &[String],
) -> io::Result<RowCount> {
    let mut count = RowCount::NONE;
    for name in names {
        count.add(run_file(rt, name.as_str())?);
    }
    let RowCount { rows, passed } = count;
    println!(rt; "{passed} of {rows} rows passed")?;
    Ok(count)
}

/// The words after the program's name.
fn words_of(alloc: Global, args: env::Args) -> Result<Vec<String>, AllocError> {
    let mut words = Vec::new(alloc);
    for word in args.skip(1) {
        words.push(word)?;
    }
    Ok(words)
}

fn run<R: Env + Print + Files + AllocGlobal + Threads + Wait + Sync>(
    rt: &R,
) -> io::Result<RowCount> {
    let names = words_of(rt.alloc(), env::args(rt)?)?;
    run_pages(rt, &names)
}

fn main(rt: HostRuntime) -> ExitCode {
    match run(&rt) {
        Ok(count) if count.rows == count.passed => ExitCode::SUCCESS,
        Ok(_) => ExitCode::from(DIFFERS),
        Err(_) => ExitCode::from(STOPPED),
    }
}
