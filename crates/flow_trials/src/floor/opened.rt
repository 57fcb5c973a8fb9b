//! A reader and a writer on a floor, with two workers.
ghost use Rattle.flow_floor.specs.Floors.{HasRoomsFor, IsCrewOf, IsIdleAt, process_count};
ghost use Rattle.std.specs.Prelude.{◌≡◌, ◌∷◌, []};

use flow_catalogue::Std;
use flow_floor::{Floor, OpenStop, Opened, Rooms, Worker};
use flow_journal::Journal;
use flow_rig::started;
use std::alloc::Global;
use std::process::Abort;

const NET: &[u8] =
    b"flow 1\n'in' -> FILE Read(ReadLines)\nRead OUT -> IN Write(WriteLines)\n'out' -> FILE Write\n";

/// The process that reads.
pub(crate) const READ: usize = 0;

/// The process that writes.
pub(crate) const WRITE: usize = 1;

/// The floor of the reader of one line and its writer, with its two workers.
pub(crate) struct Staffed {
    pub(crate) floor: Floor<Std>,
    pub(crate) first: Worker<Std>,
    pub(crate) second: Worker<Std>,
    pub(crate) rooms: Rooms<Std>,
}

/// The network on a floor, on which no turn was made.
pub(crate) fn opened(rt: &impl Abort, alloc: Global) -> Staffed
    ensures crew { IsCrewOf result.floor (result.first ∷ result.second ∷ []) }
    ensures idle { IsIdleAt result.floor result.first × IsIdleAt result.floor result.second }
    ensures processes { process_count result.floor ≡ 2 }
    ensures rooms { HasRoomsFor result.floor result.rooms }
{
    let Ok(net) = started(alloc, NET, b"x\n") else {
        panic!(rt; "no network")
    };
    let opened = match Floor::open(alloc, net, 2) {
        Ok(opened) => opened,
        Err(OpenStop { net }) => {
            net.discard();
            panic!(rt; "no memory")
        }
    };
    let Opened {
        floor,
        mut workers,
        rooms,
    } = opened;
    assert_eq!(rt; floor.processes(), 2);
    let (Some(second), Some(first)) = (workers.pop(), workers.pop()) else {
        unreachable!()
    };
    Staffed {
        floor,
        first,
        second,
        rooms,
    }
}

// Both workers, in their order.
fn together(
    rt: &impl Abort,
    alloc: Global,
    first: Worker<Std>,
    second: Worker<Std>,
) -> Vec<Worker<Std>>
    ensures { result.items ≡ first ∷ second ∷ [] }
{
    let mut workers = Vec::with_capacity(alloc, 2).expect(rt, "no memory");
    workers.push_reserved(first);
    workers.push_reserved(second);
    workers
}

/// The journal of the turns that both workers have made. The run is given up.
pub(crate) fn merged(
    rt: &impl Abort,
    alloc: Global,
    floor: Floor<Std>,
    first: Worker<Std>,
    second: Worker<Std>,
    rooms: Rooms<Std>,
) -> Journal
    requires crew { IsCrewOf floor (first ∷ second ∷ []) }
    requires rooms { HasRoomsFor floor rooms }
{
    let workers = together(rt, alloc, first, second);
    let net = floor.pause(workers, rooms).into_net();
    let journal = Journal::merge(alloc, &net);
    net.discard();
    journal.expect(rt, "no memory")
}

/// Gives the run up, by both workers.
pub(crate) fn discard(
    rt: &impl Abort,
    alloc: Global,
    floor: Floor<Std>,
    first: Worker<Std>,
    second: Worker<Std>,
    rooms: Rooms<Std>,
)
    requires crew { IsCrewOf floor (first ∷ second ∷ []) }
    requires rooms { HasRoomsFor floor rooms }
{
    let workers = together(rt, alloc, first, second);
    floor.discard(workers, rooms);
}
