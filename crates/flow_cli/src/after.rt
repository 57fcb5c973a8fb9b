//! The steps after a run: the files of the writers are written, then the report is told as it was asked for.
ghost use Rattle.std.specs.Prelude.{◌≡◌, ◌++◌, OnOk, [], is_some, map};
ghost use Rattle.std.specs.Option.{option_map};
ghost use Rattle.flow_offer.specs.Processes.{IsOfferedPlan};
ghost use Rattle.flow_words.specs.Words.{report_by};
ghost use Rattle.flow_cli.specs.After.{Prints, has_all_done, outputs_at, printed_by, remarked_by, said_by, verdict_status};
ghost use Rattle.flow_load.specs.Many.{WritesFiles, output_of};
ghost use Rattle.flow_load.specs.Runs.{report_file};
ghost use Rattle.flow_cli.specs.Top.{kept_file, outputs_of_run};

use crate::live::LiveNet;
use crate::ran::PrintedReport;
use crate::run::{KeptFile, Unwritten};
use flow_load::{Output, Status, Stop, write_files};
use flow_own::Part;
use flow_plan::KindSpec;
use flow_report::Verdict;
use flow_text::{Shelf, Sink, WriteStop, write_all};
use flow_words::ReportCommand;
use std::alloc::{AllocError, Global};

/// Writes the files of a run, in the order of the processes, then those that it keeps for a replay, and then that of its report.
pub fn write_outputs<F: Shelf, P: Part>(
    alloc: Global,
    shelf: &mut F,
    run: &Unwritten<'_, LiveNet<P>>,
    own: &[KindSpec],
) -> Result<(), Stop>
    requires { IsOfferedPlan own.now run.now.ran.plan }
    ensures { WritesFiles (F.outside shelf.old) (F.outside shelf.new) result (outputs_of_run run.now) }
{
    let mut outputs = run.ran.outputs(alloc, own)?;
    add_kept(&mut outputs, &run.journal)?;
    add_kept(&mut outputs, &run.tapes)?;
    add_report(&mut outputs, run.telling.file, &run.ran.report.text)?;
    write_files(alloc, shelf, &outputs)
}

// Adds a file that is kept for a replay, where it was named.
fn add_kept<'a>(
    outputs: &mut Vec<Output<'a>>,
    kept: &'a Option<KeptFile<'a>>,
) -> Result<(), AllocError>
    ensures { OnOk result (map output_of outputs.new.items ≡ map output_of outputs.old.items ++ kept_file kept.now) }
{
    if let Some(kept) = kept {
        outputs.push(Output {
            name: kept.name,
            bytes: &kept.bytes,
        })?;
    }
    Ok(())
}

// Adds the file of a report, where it was named.
fn add_report<'a>(
    outputs: &mut Vec<Output<'a>>,
    name: Option<&'a str>,
    bytes: &'a [u8],
) -> Result<(), AllocError>
    ensures { OnOk result (map output_of outputs.new.items ≡ map output_of outputs.old.items ++ report_file (option_map (λ s. s.now) name.entry) bytes.now) }
{
    if let Some(name) = name {
        outputs.push(Output { name, bytes })?;
    }
    Ok(())
}

/// The status of a run that came to its end. The statuses are this project's own.
pub fn verdict_status(verdict: Verdict) -> Status
    ensures { result ≡ verdict_status verdict }
{
    match verdict {
        Verdict::Finished => Status::Finished,
        Verdict::FinishedLeft => Status::FinishedLeft,
        Verdict::Deadlock => Status::Deadlock,
        Verdict::Failed => Status::Failed,
        Verdict::Running => Status::Running,
    }
}

/// Prints a text to the output and then a remark to the error output, and gives the status that comes of it.
pub fn print_text<O: Sink, E: Sink>(
    out: &mut O,
    err: &mut E,
    text: &[u8],
    remark: &[u8],
    status: Status,
) -> Status
    ensures { Prints (outputs_at (O.outside out.old) (E.outside err.old)) (outputs_at (O.outside out.new) (E.outside err.new)) text.now remark.now status result }
{
    match write_all(out, text) {
        Ok(()) => match write_all(err, remark) {
            Ok(()) => status,
            Err(WriteStop::Fault(_)) => Status::WriteFault,
        },
        Err(WriteStop::Fault(_)) => Status::WriteFault,
    }
}

impl PrintedReport {
    /// What is printed of the report, as it was asked for: nothing, where it has a file.
    pub fn printed(&self, asked: ReportCommand<'_>) -> &[u8]
        ensures { result.now ≡ printed_by (report_by asked.entry) self.now.verdict self.now.text.items self.now.brief.items }
    {
        if asked.file.is_some() {
            return b"";
        }
        self.said(asked)
    }

    /// What goes to the error output: nothing, but where the report has a file and was asked for in brief.
    pub fn remarked(&self, asked: ReportCommand<'_>) -> &[u8]
        ensures { result.now ≡ remarked_by (report_by asked.entry) self.now.verdict self.now.text.items self.now.brief.items }
    {
        if asked.file.is_some() && asked.brief {
            return self.said(asked);
        }
        b""
    }

    // What is said of the report, wherever that is: the whole of it or it in brief, or nothing of a run that finished with nothing left.
    fn said(&self, asked: ReportCommand<'_>) -> &[u8]
        ensures { result.now ≡ said_by (report_by asked.entry) self.now.verdict self.now.text.items self.now.brief.items }
    {
        if asked.quiet && has_all_done(self.verdict) {
            return b"";
        }
        if asked.brief { &self.brief } else { &self.text }
    }
}

// Whether every process ended and nothing is left.
fn has_all_done(verdict: Verdict) -> bool
    ensures { result ≡ has_all_done verdict }
{
    match verdict {
        Verdict::Finished => true,
        _ => false,
    }
}
