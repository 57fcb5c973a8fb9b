//! What each step tells.
ghost use Rattle.flow_floor.specs.Plays.{ordered, claimed, gated, came, saw, learned, placed, filled, drew, emptied, stamped, all_stamped, published, subtracted, withdrew, exited, left, parked, retired, glanced, nudged, raised, poked, lowered, told_live};

use crate::board::{Slot, View};
use atomic_table::{Join, Play, Split};
use flow_component::Component;
use std::marker::{Brand, PhantomData};

/// Which connection a step is at, in a floor of so many processes and of connections with these capacities, and how many packets it takes. Each call picks
/// it.
pub trait Spot {
    ghost use Rattle.std.specs.Prelude.{ℕ, List};

    ghost processes: { ℕ };

    ghost capacities: { List ℕ };

    ghost connection: { ℕ };

    ghost most: { ℕ };
}

impl Spot for Brand {
    ghost use Rattle.std.specs.Prelude.{[]};

    ghost processes = { 0 };

    ghost capacities = { [] };

    ghost connection = { 0 };

    ghost most = { 0 };
}

/// The packet that a step places. Each call picks it.
pub trait Parcel {
    ghost use Rattle.flow_packet.specs.Tree.{Tree};

    ghost packet: { Tree };
}

impl Parcel for Brand {
    ghost use Rattle.flow_floor.specs.Parcels.{no_packet};

    ghost packet = { no_packet };
}

/// The pending turns of the process that is held, and the net that was opened. Each call picks them.
pub trait Deed<T> {
    ghost use Rattle.std.specs.Prelude.{List};
    ghost use Rattle.flow_machine.specs.Values.{NetValue};
    ghost use Rattle.flow_floor.specs.Views.{Move};

    ghost turns: { List (Move T) };

    ghost start: { NetValue T };
}

impl<T> Deed<T> for Brand {
    ghost use Rattle.std.specs.Prelude.{[]};
    ghost use Rattle.flow_machine.specs.Values.{net_of};

    ghost turns = { [] };

    ghost start = { net_of [] [] };
}

/// What is known of the pending turns of the process that is held, and the net that was opened. Each call picks them.
pub trait Deeds<T> {
    ghost use Rattle.std.specs.Prelude.{List};
    ghost use Rattle.flow_machine.specs.Values.{NetValue};
    ghost use Rattle.flow_floor.specs.Views.{Move};

    ghost are: { List (Move T) → Type 0 };

    ghost start: { NetValue T };
}

impl<T> Deeds<T> for Brand {
    ghost use Rattle.std.specs.Prelude.{[]};
    ghost use Rattle.flow_machine.specs.Values.{net_of};

    ghost are = { λ _. Unit {0} };

    ghost start = { net_of [] [] };
}

/// Whom a step notes for waking. Each call picks it.
pub trait Noting {
    ghost use Rattle.std.specs.Prelude.{ℕ, List};

    ghost notes: { List ℕ };
}

impl Noting for Brand {
    ghost use Rattle.std.specs.Prelude.{[]};

    ghost notes = { [] };
}

pub struct Take<S: Spot> {
    spot: PhantomData<S>,
}

impl<K: Component, S: Spot> Play<Slot<K>, View<K>> for Take<S> {
    ghost then = { λ st. claimed S.connection (ordered st) };
}

/// Takes the gate of a connection into which several send.
pub struct Enter<S: Spot> {
    spot: PhantomData<S>,
}

impl<K: Component, S: Spot> Play<Slot<K>, View<K>> for Enter<S> {
    ghost then = { λ st. gated S.connection (ordered st) };
}

/// Comes to the sending end of a connection into which one process sends.
pub struct Come<S: Spot> {
    spot: PhantomData<S>,
}

impl<K: Component, S: Spot> Play<Slot<K>, View<K>> for Come<S> {
    ghost then = { came S.connection };
}

pub struct Look;

impl<K: Component> Play<Slot<K>, View<K>> for Look {
    ghost then = { λ st. saw (ordered st) };
}

/// Looks at the level, to be told it.
pub struct Learn<S: Spot> {
    spot: PhantomData<S>,
}

impl<K: Component, S: Spot> Play<Slot<K>, View<K>> for Learn<S> {
    ghost then = { λ st. learned S.most (ordered st) };
}

/// Looks at the level, to place a packet.
pub struct Place<S: Spot, B: Parcel> {
    spot: PhantomData<(S, B)>,
}

impl<K: Component, S: Spot, B: Parcel> Play<Slot<K>, View<K>> for Place<S, B> {
    ghost then = { λ st. placed K.rules S.processes S.capacities S.connection S.most B.packet (ordered st) };
}

/// Gives a cell back with the packet that was placed.
pub struct Fill;

impl<K: Component> Play<Slot<K>, View<K>> for Fill {
    ghost then = { filled };
}

/// Looks at the level, to draw a packet.
pub struct Draw<S: Spot> {
    spot: PhantomData<S>,
}

impl<K: Component, S: Spot> Play<Slot<K>, View<K>> for Draw<S> {
    ghost then = { λ st. drew K.rules S.processes S.capacities S.connection (ordered st) };
}

/// Gives a cell back from which the packet was drawn.
pub struct Empty;

impl<K: Component> Play<Slot<K>, View<K>> for Empty {
    ghost then = { emptied };
}

/// Stamps the pending turns.
pub struct Stamp<D> {
    deed: PhantomData<D>,
}

impl<K: Component, D: Deed<K>> Play<Slot<K>, View<K>> for Stamp<D> {
    ghost then = { stamped K.rules D.start D.turns };
}

/// Stamps pending turns of which something is known.
pub struct StampAll<D> {
    deeds: PhantomData<D>,
}

impl<K: Component, D: Deeds<K>> Play<Slot<K>, View<K>> for StampAll<D> {
    ghost then = { all_stamped K.rules D.start D.are };
}

pub struct Publish<N: Noting> {
    noting: PhantomData<N>,
}

impl<K: Component, N: Noting> Play<Slot<K>, View<K>> for Publish<N> {
    ghost then = { published N.notes };
}

/// Takes a closed sender out of the level word.
pub struct Subtract<N: Noting> {
    noting: PhantomData<N>,
}

impl<K: Component, N: Noting> Play<Slot<K>, View<K>> for Subtract<N> {
    ghost then = { subtracted N.notes };
}

pub struct Withdraw<N: Noting> {
    noting: PhantomData<N>,
}

impl<K: Component, N: Noting> Play<Slot<K>, View<K>> for Withdraw<N> {
    ghost then = { withdrew N.notes };
}

/// Goes from the sending end.
pub struct Exit;

impl<K: Component> Play<Slot<K>, View<K>> for Exit {
    ghost then = { exited };
}

pub struct Leave;

impl<K: Component> Play<Slot<K>, View<K>> for Leave {
    ghost then = { left };
}

pub struct Park;

impl<K: Component> Play<Slot<K>, View<K>> for Park {
    ghost then = { λ st. parked (ordered st) };
}

pub struct Retire;

impl<K: Component> Play<Slot<K>, View<K>> for Retire {
    ghost then = { retired };
}

pub struct Glance;

impl<K: Component> Play<Slot<K>, View<K>> for Glance {
    ghost then = { glanced };
}

pub struct Nudge;

impl<K: Component> Play<Slot<K>, View<K>> for Nudge {
    ghost then = { nudged };
}

pub struct Raise;

impl<K: Component> Play<Slot<K>, View<K>> for Raise {
    ghost then = { raised };
}

pub struct Poke;

impl<K: Component> Play<Slot<K>, View<K>> for Poke {
    ghost then = { poked };
}

pub struct Lower;

impl<K: Component> Play<Slot<K>, View<K>> for Lower {
    ghost then = { lowered };
}

pub struct Live;

impl<K: Component> Play<Slot<K>, View<K>> for Live {
    ghost then = { λ st. told_live (ordered st) };
}

/// How a seat is cut in two.
pub struct Cut;

impl<K: Component> Split<View<K>> for Cut {
    ghost use Rattle.flow_floor.specs.Views.{cut};
    ghost use Rattle.flow_floor.specs.Seats.{newcomer};

    ghost left = { cut };

    ghost right = { λ _. newcomer 1 };
}

/// How a seat takes in another.
pub struct Glue;

impl<K: Component> Join<View<K>> for Glue {
    ghost use Rattle.flow_floor.specs.Views.{merged};
    ghost use Rattle.flow_floor.specs.Seats.{newcomer};

    ghost both = { merged };

    ghost spent = { newcomer 0 };
}
