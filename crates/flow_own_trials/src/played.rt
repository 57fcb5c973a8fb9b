//! That a player gives the entry of its tape, and another component is told as by itself.

ghost use Rattle.std.specs.Prelude.{◌<◌};
ghost use Rattle.flow_packet.specs.Held.{held_of};
ghost use Rattle.flow_own.specs.Tapes.{own_rules, own_state};
ghost use Rattle.flow_own.specs.Mixed.{mixed_state};
ghost use Rattle.flow_played.specs.Rules.{PlayedReady};

use flow_component::{Answer, Component, Port, Shape, Wish};
use flow_items::{Items, Text};
use flow_number::Number;
use flow_own::{End, Entry, Own, Tape};
use flow_packet::{Hands, Kind, PacketId};
use flow_played::Played;
use std::alloc::{AllocError, Global};
use std::process::Abort;
use std::test::Fail;

const SHAPE: Shape = Shape {
    inputs: 0,
    outputs: 1,
};

// A tape with one entry: at its start the part makes the first packet of process 0 and wishes to send it.
fn tape_of_one(alloc: Global) -> Result<Tape, AllocError> {
    let made = PacketId::of_number(0);
    let text = Text::from_slice(alloc, b"a")?;
    let entry = Entry {
        answer: Answer::Start,
        made: Some((Kind::Normal, text)),
        dropped: Items::new(alloc),
        end: End::Wish(Wish::Send(Port(0), made)),
    };
    Ok(Tape::of(vec![in alloc; entry]?))
}

fn goes_to_threads<T: Send>(_value: &T) {}

// Its first work, after which it has made the packet and wishes to send it.
fn starts(rt: &impl Abort, hands: &mut Hands, played: &mut Played<Own<Number>>)
    requires ready { PlayedReady own_rules (mixed_state own_state played.old) (held_of hands.old) Answer.Start }
    requires room { hands.old.made < 4294967295 }
{
    let made = hands.next_id();
    assert_eq!(rt;
        played.resume(hands, Answer::Start),
        Ok(Wish::Send(Port(0), made))
    );
    assert!(rt; hands.has(made));
    assert_eq!(rt; hands.text(made), b"a".as_slice());
}

#[test]
fn a_player_gives_its_entry(rt: HostRuntime) -> Result<(), Fail> {
    let alloc = rt.alloc();
    let tape = tape_of_one(alloc)?;
    let used = Items::of(vec![in alloc; 0u32]?);
    let mut played: Played<Own<Number>> = Played::player(tape, SHAPE, used);
    goes_to_threads(&played);
    assert_eq!(&rt; played.shape(), SHAPE);
    assert!(&rt; played.component().is_none());
    let mut hands = Hands::new(alloc, 0);
    starts(&rt, &mut hands, &mut played);
    hands.discard();
    played.end();
    Ok(())
}

#[test]
fn another_component_is_told_as_by_itself(rt: HostRuntime) -> Result<(), Fail> {
    let alloc = rt.alloc();
    let tape = tape_of_one(alloc)?;
    let used = Items::of(vec![in alloc; 0u32]?);
    let mut played: Played<Own<Number>> = Played::other(Own::player(tape, SHAPE, used));
    assert_eq!(&rt; played.shape(), SHAPE);
    assert!(&rt; played.component().is_some());
    let mut hands = Hands::new(alloc, 0);
    starts(&rt, &mut hands, &mut played);
    hands.discard();
    played.end();
    Ok(())
}
