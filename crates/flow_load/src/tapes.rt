//! The tapes of a replay: those of the file that it names, and how many its network needs.
ghost use Rattle.std.specs.Prelude.{◌≡◌, length};
ghost use Rattle.std.specs.Option.{option_map};
ghost use Rattle.flow_offer.specs.Processes.{IsOfferedPlan, own_processes};
ghost use Rattle.flow_load.specs.Prepare.{ReadsTapes};

use crate::step::read_file;
use crate::stop::{Stop, TapesRefusal, read_stop};
use flow_offer::own_kind;
use flow_own::Tape;
use flow_plan::{KindSpec, Plan};
use flow_tape::{CountStop, TAPE_FILE_LIMIT, so_many_from_vec};
use flow_text::Shelf;
use std::alloc::Global;

/// The tapes of the file of this name, which have to be as many as are wanted; none where no file is named. The number in front of them is
/// judged before anything is kept of them but the file's bytes.
pub fn read_tapes<F: Shelf>(
    alloc: Global,
    shelf: &mut F,
    name: Option<&str>,
    wanted: u32,
) -> Result<Vec<Tape>, Stop>
    ensures { ReadsTapes wanted (F.outside shelf.old) (F.outside shelf.new) (option_map (λ s. s.now) name.entry) result }
{
    let Some(name) = name else {
        if wanted > 0 {
            return Err(Stop::TapesRefused(TapesRefusal::Count(0)));
        }
        return Ok(Vec::new(alloc));
    };
    let bytes = match read_file(alloc, shelf, name, TAPE_FILE_LIMIT) {
        Ok(bytes) => bytes,
        Err(stop) => return Err(read_stop(alloc, stop, name)),
    };
    match so_many_from_vec(alloc, bytes, wanted) {
        Ok(tapes) => Ok(tapes),
        Err(CountStop::Fault(fault)) => Err(Stop::TapesRefused(TapesRefusal::Byte(fault.place))),
        Err(CountStop::Count(number)) => {
            let number = u64::from(number);
            Err(Stop::TapesRefused(TapesRefusal::Count(number)))
        }
        Err(CountStop::NoMemory) => Err(Stop::NoMemory),
    }
}

/// How many processes of a plan are of kinds of the caller's own. Takes no memory.
pub(crate) fn count_own(plan: &Plan, own: &[KindSpec]) -> u32
    requires { IsOfferedPlan own.now plan.now }
    ensures { result ≡ length (own_processes own.now plan.now) }
{
    let mut count = 0;
    for process in 0..plan.processes().len() as u32 {
        if own_kind(plan, process, own).is_some() {
            count += 1;
        }
    }
    count
}
