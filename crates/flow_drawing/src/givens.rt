//! The texts of a drawing that stand beside a process, each at its port.
ghost use Rattle.std.specs.Prelude.{◌≡◌, ◌++◌, ◌∷◌, [], ◌<◌, ◌≤◌, ◌^◌, length, IfOk, OnOk};
ghost use Rattle.flow_limits.specs.declared.TheConstants.{PROCESS_LIMIT};
ghost use Rattle.std.specs.List.{enumerate_from, flat_map};
ghost use Rattle.flow_drawing.specs.Drawings.{files_of, given_initial, given_option, givens_of};

use crate::drawing::Given;
use crate::ports::input_text;
use crate::settings::{is_writer, option_name};
use flow_items::{Items, Text};
use flow_plan::{KindSpec, Plan, Process};
use std::alloc::{AllocError, Global};

// The option at this place of a process.
fn given_option(
    alloc: Global,
    kinds: &[KindSpec],
    number: usize,
    kind: &[u8],
    place: usize,
    option: &(u32, Text),
) -> Result<Given, AllocError>
    ensures { IfOk result (λ given. given ∷ [] ≡ given_option kinds.now number kind.now (place, option.now)) }
{
    let name = option_name(kinds, kind, option.0);
    Ok(Given {
        process: number,
        option: true,
        place,
        port: Text::from_slice(alloc, name)?,
        text: option.1.copy(alloc)?,
    })
}

// The initial text at this place of a process.
fn given_initial(
    alloc: Global,
    plan: &Plan,
    number: usize,
    place: usize,
    initial: &(u32, Text),
) -> Result<Given, AllocError>
    requires { number < 2 ^ 32 }
    ensures { IfOk result (λ given. given ∷ [] ≡ given_initial plan.now number (place, initial.now)) }
{
    Ok(Given {
        process: number,
        option: false,
        place,
        port: input_text(alloc, plan, number as u32, initial.0)?,
        text: initial.1.copy(alloc)?,
    })
}

// Adds the options of a process of this kind as texts of their own.
fn put_options(
    alloc: Global,
    givens: &mut Items<Given>,
    kinds: &[KindSpec],
    number: usize,
    kind: &[u8],
    options: &[(u32, Text)],
) -> Result<(), AllocError>
    ensures { OnOk result (givens.new ≡ givens.old ++ flat_map (given_option kinds.now number kind.now) (enumerate_from 0 options.now)) }
{
    for place in 0..options.len() {
        let option = &options[place];
        let given = given_option(alloc, kinds, number, kind, place, option)?;
        givens.push(given)?;
    }
    Ok(())
}

// Adds the initial texts of a process.
fn put_initials(
    alloc: Global,
    givens: &mut Items<Given>,
    plan: &Plan,
    number: usize,
    initials: &[(u32, Text)],
) -> Result<(), AllocError>
    requires { number < 2 ^ 32 }
    ensures { OnOk result (givens.new ≡ givens.old ++ flat_map (given_initial plan.now number) (enumerate_from 0 initials.now)) }
{
    for place in 0..initials.len() {
        let initial = &initials[place];
        let given = given_initial(alloc, plan, number, place, initial)?;
        givens.push(given)?;
    }
    Ok(())
}

// Adds the file that a process of this kind writes, where it is a writer.
fn put_files(
    alloc: Global,
    givens: &mut Items<Given>,
    kinds: &[KindSpec],
    number: usize,
    process: &Process,
) -> Result<(), AllocError>
    ensures { OnOk result (givens.new ≡ givens.old ++ files_of kinds.now (number, process.now)) }
{
    let kind = process.kind.as_slice();
    if !is_writer(kind) {
        return Ok(());
    }
    let options = process.options.as_slice();
    put_options(alloc, givens, kinds, number, kind, options)
}

// Adds the texts beside a process: the file that it writes, and then its initial texts.
fn put_givens(
    alloc: Global,
    givens: &mut Items<Given>,
    kinds: &[KindSpec],
    plan: &Plan,
    number: usize,
    process: &Process,
) -> Result<(), AllocError>
    requires { number < 2 ^ 32 }
    ensures { OnOk result (givens.new ≡ givens.old ++ givens_of kinds.now plan.now (number, process.now)) }
{
    put_files(alloc, givens, kinds, number, process)?;
    put_initials(alloc, givens, plan, number, process.initials.as_slice())
}

// The texts of these processes, in their order.
fn givens_in(
    alloc: Global,
    kinds: &[KindSpec],
    plan: &Plan,
    processes: &[Process],
) -> Result<Items<Given>, AllocError>
    requires { length processes.now ≤ PROCESS_LIMIT }
    ensures { IfOk result (λ givens. givens ≡ flat_map (givens_of kinds.now plan.now) (enumerate_from 0 processes.now)) }
{
    let mut givens = Items::new(alloc);
    for number in 0..processes.len() {
        let process = &processes[number];
        put_givens(alloc, &mut givens, kinds, plan, number, process)?;
    }
    Ok(givens)
}

/// The texts beside the processes of a plan over these kinds, by the processes in their order.
pub fn all_givens(
    alloc: Global,
    kinds: &[KindSpec],
    plan: &Plan,
) -> Result<Items<Given>, AllocError>
    ensures { IfOk result (λ givens. givens ≡ flat_map (givens_of kinds.now plan.now) (enumerate_from 0 plan.now.processes)) }
{
    givens_in(alloc, kinds, plan, plan.processes())
}
