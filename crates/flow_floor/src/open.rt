//! How a floor is opened.
ghost use Rattle.std.specs.Prelude.{◌≡◌, ◌+◌, ◌≤◌, [], length, All, IfOk, IfErr, vec_capacity};
ghost use Rattle.flow_limits.specs.declared.TheConstants.{CONNECTION_LIMIT, WORKER_LIMIT};
ghost use Rattle.flow_machine.specs.Joins.{Joins};
ghost use Rattle.flow_machine.specs.Values.{net_with};
ghost use Rattle.flow_floor.specs.Ends.{capacities_of};
ghost use Rattle.flow_ring.specs.Places.{slot_count};
ghost use Rattle.flow_floor.specs.Opening.{AreSound, FirstWords};
ghost use Rattle.flow_floor.specs.Floors.{opened_net, process_count, HasRoomsFor, IsCrewOf, IsNewWorker};

use crate::back::join_again;
use crate::board::Slot;
use crate::floor::{Floor, Worker};
use crate::lays::first_slots;
use crate::rack::{Rack, racked};
use crate::roll::Roll;
use crate::rooms::Rooms;
use crate::words::first_words;
use atomic_table::Table;
use flow_component::Component;
use flow_machine::{Body, Channel, Net, Parts};
use flow_plan::Connection;
use flow_ring::Layout;
use std::alloc::{AllocError, Global};
use std::snapshot::Snapshot;

/// A net that wasn't opened, for want of memory: it comes back as it was.
pub struct OpenStop<K: Component> {
    pub net: Net<K>,
}

/// A floor, all its workers, and the room for its end. That lies apart from the floor: no worker touches it, and a floor that had it could be shared only
/// where components can.
pub struct Opened<K: Component> {
    pub floor: Floor<K>,
    pub workers: Vec<Worker<K>>,
    pub rooms: Rooms<K>,
}

/// The same net. A net's invariant, that its connections and their senders are few, is told by its pieces alone.
fn measured<K: Component>(net: Net<K>) -> Net<K>
    ensures same { result ≡ net }
    ensures few { length result.channels ≤ CONNECTION_LIMIT }
    ensures sound { AreSound result.channels }
{
    net.split().join()
}

/// The capacity of each connection.
fn capacities<K: Component>(alloc: Global, net: &Net<K>) -> Result<Vec<u32>, AllocError>
    requires { length net.now.channels ≤ CONNECTION_LIMIT }
    ensures { IfOk result (λ capacities. capacities.items ≡ capacities_of net.now) }
{
    let mut capacities = Vec::with_capacity(alloc, net.connections())?;
    for connection in 0..net.connections() {
        let channel = net.channel(connection as u32);
        capacities.push_reserved(channel.capacity());
    }
    Ok(capacities)
}

/// Where the words and slots of a net's floor lie.
fn layout_of<K: Component>(alloc: Global, net: &Net<K>) -> Result<Layout, AllocError>
    requires few { length net.now.channels ≤ CONNECTION_LIMIT }
    requires sound { AreSound net.now.channels }
    ensures processes { IfOk result (λ l. l.processes ≡ length net.now.bodies) }
    ensures capacities { IfOk result (λ l. l.capacities.items ≡ capacities_of net.now) }
{
    let capacities = capacities(alloc, net)?;
    Layout::of(alloc, net.processes() as usize, capacities)
}

/// A roll for the first worker, and one for each of the others.
fn rolls(alloc: Global, workers: u32) -> Result<(Roll, Vec<Roll>), AllocError>
    requires { 1 ≤ workers }
    ensures { IfOk result (λ r. length r.1.items + 1 ≡ workers) }
{
    let mut others = Vec::with_capacity(alloc, workers as usize)?;
    for _i in 1..workers {
        others.push_reserved(Roll::new(alloc)?);
    }
    Ok((Roll::new(alloc)?, others))
}

/// What is taken before a net is taken apart.
struct Laid<K: Component> {
    layout: Layout,
    words: Vec<u64>,
    crew: Vec<Worker<K>>,
    rolls: (Roll, Vec<Roll>),
    starved: Vec<u32>,
    bodies: Vec<Body<K>>,
    racks: Vec<Rack<K>>,
    slots: Vec<Slot<K>>,
}

/// Takes all that a floor needs.
fn lay<K: Component>(alloc: Global, net: &Net<K>, workers: u32) -> Result<Laid<K>, AllocError>
    requires least { 1 ≤ workers }
    requires few { length net.now.channels ≤ CONNECTION_LIMIT }
    requires sound { AreSound net.now.channels }
    ensures layout { IfOk result (λ l. (l.layout.processes ≡ length net.now.bodies) × (l.layout.capacities.items ≡ capacities_of net.now)) }
    ensures words { IfOk result (λ l. FirstWords net.now l.words.items) }
    ensures crew { IfOk result (λ l. (l.crew.items ≡ []) × (workers ≤ vec_capacity l.crew)) }
    ensures rolls { IfOk result (λ l. length l.rolls.1.items + 1 ≡ workers) }
    ensures starved { IfOk result (λ l. (length l.starved.items ≡ 0) × (length net.now.bodies ≤ vec_capacity l.starved)) }
    ensures bodies { IfOk result (λ l. (length l.bodies.items ≡ 0) × (length net.now.bodies ≤ vec_capacity l.bodies)) }
    ensures racks { IfOk result (λ l. (l.racks.items ≡ []) × (length net.now.bodies ≤ vec_capacity l.racks)) }
    ensures slots { IfOk result (λ l. (l.slots.items ≡ []) × (slot_count l.layout.processes l.layout.capacities.items ≤ vec_capacity l.slots)) }
{
    let layout = layout_of(alloc, net)?;
    let words = first_words(alloc, &layout, net)?;
    let crew = Vec::with_capacity(alloc, workers as usize)?;
    let rolls = rolls(alloc, workers)?;
    let starved = Vec::with_capacity(alloc, layout.processes)?;
    let bodies = Vec::with_capacity(alloc, layout.processes)?;
    let Ok(racks) = Vec::with_capacity(alloc, layout.processes) else {
        bodies.destroy_empty();
        return Err(AllocError);
    };
    let Ok(slots) = Vec::with_capacity(alloc, layout.slots()) else {
        bodies.destroy_empty();
        racks.destroy_empty();
        return Err(AllocError);
    };
    Ok(Laid {
        layout,
        words,
        crew,
        rolls,
        starved,
        bodies,
        racks,
        slots,
    })
}

/// A net whose bodies found no memory for the heap, put together again.
fn unopened<K: Component>(
    plan: Vec<Connection>,
    bodies: Vec<Body<K>>,
    channels: Vec<Channel>,
    slots: Vec<Slot<K>>,
) -> OpenStop<K>
    requires joins { Joins K.rules (net_with plan.items bodies.items channels.items) }
    requires slots { slots.items ≡ [] }
    ensures { result.net ≡ net_with plan.items bodies.items channels.items }
{
    slots.destroy_empty();
    let parts = Parts {
        connections: plan,
        bodies,
        channels,
    };
    OpenStop { net: parts.join() }
}

/// A floor of a net for which all but the bodies' places on the heap was taken.
fn begin<K: Component>(
    alloc: Global,
    net: Net<K>,
    laid: Laid<K>,
    workers: u32,
) -> Result<Opened<K>, OpenStop<K>>
    requires least { 1 ≤ workers }
    requires most { workers ≤ WORKER_LIMIT }
    requires few { length net.channels ≤ CONNECTION_LIMIT }
    requires sound { AreSound net.channels }
    requires layout { (laid.layout.processes ≡ length net.bodies) × (laid.layout.capacities.items ≡ capacities_of net) }
    requires words { FirstWords net laid.words.items }
    requires crew { (laid.crew.items ≡ []) × (workers ≤ vec_capacity laid.crew) }
    requires rolls { length laid.rolls.1.items + 1 ≡ workers }
    requires starved { (length laid.starved.items ≡ 0) × (length net.bodies ≤ vec_capacity laid.starved) }
    requires bodies { (length laid.bodies.items ≡ 0) × (length net.bodies ≤ vec_capacity laid.bodies) }
    requires racks { (laid.racks.items ≡ []) × (length net.bodies ≤ vec_capacity laid.racks) }
    requires slots { (laid.slots.items ≡ []) × (slot_count laid.layout.processes laid.layout.capacities.items ≤ vec_capacity laid.slots) }
    ensures opened { IfOk result (λ o. opened_net o.floor ≡ net) }
    ensures crew { IfOk result (λ o. IsCrewOf o.floor o.workers.items × (length o.workers.items ≡ workers)) }
    ensures fresh { IfOk result (λ o. All IsNewWorker o.workers.items) }
    ensures rooms { IfOk result (λ o. HasRoomsFor o.floor o.rooms) }
    ensures refused { IfErr result (λ stop. stop.net ≡ net) }
{
    let Laid {
        layout,
        words,
        crew,
        rolls: (woken, others),
        starved,
        bodies: room,
        racks,
        slots,
    } = laid;
    let about = Snapshot::of(&net);
    let Parts {
        bodies,
        channels,
        connections: plan,
    } = net.split();
    let (racks, room) = match racked(alloc, bodies, racks, room) {
        Ok(both) => both,
        Err(bodies) => return Err(unopened(plan, bodies, channels, slots)),
    };
    let (slots, channels) = first_slots(&layout, racks, channels, slots);
    let rooms = Rooms {
        bodies: room,
        channels,
        starved,
    };
    match Table::new(alloc, words.as_slice(), slots, &about) {
        Ok((table, seat)) => {
            let floor = Floor {
                table,
                layout,
                plan,
            };
            let workers = floor.hire(crew, others, Worker { seat, woken }, workers);
            Ok(Opened {
                floor,
                workers,
                rooms,
            })
        }
        Err(refused) => {
            let net = join_again(&about, &layout, refused.slots, rooms, plan);
            Err(OpenStop { net })
        }
    }
}

impl<K: Component> Floor<K> {
    /// Opens a net. A worker's number is its place in the vector. All processes are ready, those that are over too. All memory that the floor ever takes
    /// is taken here.
    pub fn open(alloc: Global, net: Net<K>, workers: u32) -> Result<Opened<K>, OpenStop<K>>
        requires least { 1 ≤ workers }
        requires most { workers ≤ WORKER_LIMIT }
        ensures opened { IfOk result (λ o. opened_net o.floor ≡ net) }
        ensures crew { IfOk result (λ o. IsCrewOf o.floor o.workers.items × (length o.workers.items ≡ workers)) }
        ensures fresh { IfOk result (λ o. All IsNewWorker o.workers.items) }
        ensures rooms { IfOk result (λ o. HasRoomsFor o.floor o.rooms) }
        ensures refused { IfErr result (λ stop. stop.net ≡ net) }
    {
        let net = measured(net);
        match lay(alloc, &net, workers) {
            Ok(laid) => begin(alloc, net, laid, workers),
            Err(AllocError) => Err(OpenStop { net }),
        }
    }

    /// How many processes it has.
    pub fn processes(&self) -> usize
        ensures { result ≡ process_count self.now }
    {
        self.layout.processes
    }
}
