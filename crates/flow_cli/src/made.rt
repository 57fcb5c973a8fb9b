//! What is said of a make: of the network and the input that are made from a number, when they have run.
ghost use Rattle.std.specs.Prelude.{◌≡◌, ◌<◌, ◌++◌, ◌∷◌, [], IfOk, OnOk, codes, length};
ghost use Rattle.std.specs.Fmt.{decimal};
ghost use Rattle.flow_offer.specs.Processes.{IsOfferedPlan};
ghost use Rattle.flow_load.specs.MadeJobs.{made_input};
ghost use Rattle.flow_cli.specs.Makes.{PutsOutput, SaysOfMake, make_text, output_lines_from};
ghost use Rattle.flow_cli.specs.Leaves.{bytes_at};

use crate::after::verdict_status;
use crate::live::LiveNet;
use crate::outputs::{written_at, written_name};
use crate::ran::Ran;
use crate::run::Said;
use flow_own::Part;
use flow_text::put_decimal;
use std::alloc::{AllocError, Global};

/// What is said of a make whose run is over.
pub(crate) fn said_of_make<P: Part>(
    alloc: Global,
    number: u32,
    bytes: usize,
    ran: Ran<LiveNet<P>>,
) -> Result<Said, AllocError>
    requires offered { IsOfferedPlan [] ran.plan }
    requires input { bytes ≡ length (made_input number) }
    ensures { IfOk result (SaysOfMake number ran) }
{
    let text = text_of(alloc, number, bytes, &ran);
    let account = ran.into_account();
    Ok(Said {
        text: text?,
        status: verdict_status(account.report.verdict),
        journal: account.journal,
        tapes: account.tapes,
        crew: account.crew,
    })
}

// What is said of a make.
fn text_of<P: Part>(
    alloc: Global,
    number: u32,
    bytes: usize,
    ran: &Ran<LiveNet<P>>,
) -> Result<Vec<u8>, AllocError>
    requires standard { IsOfferedPlan [] ran.now.plan }
    requires input { bytes ≡ length (made_input number) }
    ensures { IfOk result (λ text. text.items ≡ make_text number ran.now.report.text.items (bytes_at ran.now.net.bodies) ran.now.plan) }
{
    let mut text = b"make ".to_vec(alloc)?;
    put_decimal(&mut text, u64::from(number))?;
    text.extend_from_slice(b" input ")?;
    put_decimal(&mut text, bytes as u64)?;
    text.push(10)?;
    text.extend_from_slice(&ran.report.text)?;
    put_outputs(&mut text, ran)?;
    Ok(text)
}

// Appends a line for each process that writes a file.
fn put_outputs<P: Part>(text: &mut Vec<u8>, ran: &Ran<LiveNet<P>>) -> Result<(), AllocError>
    requires { IsOfferedPlan [] ran.now.plan }
    ensures { OnOk result (text.new.items ≡ text.old.items ++ output_lines_from (bytes_at ran.now.net.bodies) 0 ran.now.plan.processes) }
{
    for process in 0..ran.plan.processes().len() {
        put_output(text, ran, process as u32)?;
    }
    Ok(())
}

// Appends the line of one process, if it writes a file.
fn put_output<P: Part>(
    text: &mut Vec<u8>,
    ran: &Ran<LiveNet<P>>,
    process: u32,
) -> Result<(), AllocError>
    requires standard { IsOfferedPlan [] ran.now.plan }
    requires in_range { process < length ran.now.plan.processes }
    ensures { OnOk result (PutsOutput text.old.items text.new.items ran.now process) }
{
    match written_name(&ran.plan, process, &[]) {
        None => Ok(()),
        Some(_) => {
            let name = ran.plan.processes()[process as usize].name.as_slice();
            put_line(text, name, written_at(&ran.net, process))
        }
    }
}

// Appends the line of a process of this name that wrote these bytes.
fn put_line(text: &mut Vec<u8>, name: &[u8], bytes: &[u8]) -> Result<(), AllocError>
    ensures { OnOk result (text.new.items ≡ text.old.items ++ (codes "output " ++ name.now ++ 32 ∷ decimal (length bytes.now) ++ 10 ∷ [])) }
{
    text.extend_from_slice(b"output ")?;
    text.extend_from_slice(name)?;
    text.push(32)?;
    put_decimal(text, bytes.len() as u64)?;
    text.push(10)?;
    Ok(())
}
