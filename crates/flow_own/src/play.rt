//! Whether an entry of a tape can be played: nothing is done yet.

ghost use Rattle.std.specs.Prelude.{◌≡◌, ◌==◌, ◌<◌, ◌+◌, ◌^◌, ◌++◌, ◌∷◌, [], length, map, take, IfOk, OnOk, is_some, Some, position, slice_get};
ghost use Rattle.std.specs.Option.{option_map};
ghost use Rattle.std.specs.Bool.{OnTrue, OnFalse};
ghost use Rattle.flow_packet.specs.Tree.{id_of};
ghost use Rattle.flow_packet.specs.Held.{held_of};
ghost use Rattle.flow_own.specs.Ends.{is_used};
ghost use Rattle.flow_own.specs.Lefts.{is_id, is_among, take_out, left_of, root_ids, can_end_by};
ghost use Rattle.flow_own.specs.Tapes.{is_answer, can_make, can_play};
ghost use Rattle.flow_own.specs.Taping.{Plays};

use crate::acts::act;
use crate::tape::{End, Entry, Tape};
use flow_component::{Answer, Fail, OwnFail, Port, Shape, Stop, Wish};
use flow_items::Text;
use flow_limits::{HANDS_LIMIT, TEXT_LIMIT};
use flow_packet::{Hands, Kind, PacketId};
use std::alloc::{AllocError, Global};

// The two answers are the same.
fn is_answer(a: &Answer, b: &Answer) -> bool
    ensures { result ≡ is_answer a.now b.now }
{
    match a {
        Answer::Start => matches!(b, Answer::Start),
        Answer::Got(id) => match b {
            Answer::Got(other) => *id == *other,
            _ => false,
        },
        Answer::End => matches!(b, Answer::End),
        Answer::Sent => matches!(b, Answer::Sent),
        Answer::Level(level) => match b {
            Answer::Level(other) => *level == *other,
            _ => false,
        },
    }
}

// The packet may be made with these hands.
fn can_make(hands: &Hands, made: &Option<(Kind, Text)>) -> bool
    ensures { result ≡ can_make (held_of hands.now) made.now }
{
    match made {
        Some((_, text)) => text.len() <= TEXT_LIMIT && hands.packets().len() < HANDS_LIMIT,
        None => true,
    }
}

fn is_among(ids: &[PacketId], id: PacketId) -> bool
    ensures { result ≡ is_among ids.now id }
{
    ids.iter().any(|other| *other == id)
}

fn place_of(ids: &[PacketId], id: PacketId) -> Option<usize>
    ensures { result ≡ position (is_id id) ids.now }
{
    ids.iter().position(|other| *other == id)
}

// Takes the first out that has this id. False: none has it, and all are as before.
fn take_out(ids: &mut Vec<PacketId>, id: PacketId) -> bool
    ensures found { result ≡ is_among ids.old.items id }
    ensures out { OnTrue result (ids.new.items ≡ take_out ids.old.items id) }
    ensures same { OnFalse result (ids.new.items ≡ ids.old.items) }
{
    match place_of(ids, id) {
        Some(place) => {
            ids.remove(place);
            true
        }
        None => false,
    }
}

// The ids at the root, and that of the packet that is to be made.
fn root_ids(
    alloc: Global,
    hands: &Hands,
    made: &Option<(Kind, Text)>,
) -> Result<Vec<PacketId>, AllocError>
    requires { hands.now.made < 4294967295 }
    ensures { IfOk result (λ ids. ids.items ≡ root_ids (held_of hands.now) made.now) }
{
    let mut ids = Vec::new(alloc);
    for packet in hands.packets() {
        ids.push(packet.id())?;
    }
    if made.is_some() {
        ids.push(hands.next_id())?;
    }
    Ok(ids)
}

// What is left of these ids without those, if each of those is there when it is taken out.
fn left_of(ids: Vec<PacketId>, dropped: &[PacketId]) -> Option<Vec<PacketId>>
    ensures { option_map (λ left. left.items) result ≡ left_of ids.items dropped.now }
{
    let mut ids = ids;
    for id in dropped {
        if !take_out(&mut ids, *id) {
            return None;
        }
    }
    Some(ids)
}

pub(crate) fn is_used(used: &[u32], port: Port) -> bool
    ensures { result ≡ is_used used.now port.0 }
{
    used.iter().any(|other| *other == port.0)
}

// An entry may end so, with these ids at the root.
fn can_end(shape: Shape, used: &[u32], ids: &[PacketId], end: &End) -> bool
    ensures { result ≡ can_end_by shape used.now ids.now end.now }
{
    match end {
        End::Wish(Wish::Receive(port)) => port.0 < shape.inputs,
        End::Wish(Wish::Send(port, id)) => is_among(ids, *id) && is_used(used, *port),
        End::Wish(Wish::Level(port)) => is_used(used, *port),
        End::Wish(Wish::Deactivate) => true,
        End::Fail(cause) => !matches!(cause, OwnFail::Differs),
    }
}

// The entry can be played, told this answer with these hands.
fn can_play(
    alloc: Global,
    shape: Shape,
    used: &[u32],
    hands: &Hands,
    answer: &Answer,
    entry: &Entry,
) -> Result<bool, AllocError>
    requires { hands.now.made < 4294967295 }
    ensures { IfOk result (λ can. can ≡ can_play shape used.now (held_of hands.now) answer.now entry.now) }
{
    if !is_answer(&entry.answer, answer) || !can_make(hands, &entry.made) {
        return Ok(false);
    }
    let ids = root_ids(alloc, hands, &entry.made)?;
    let Some(left) = left_of(ids, entry.dropped.as_slice()) else {
        return Ok(false);
    };
    Ok(can_end(shape, used, &left, &entry.end))
}

/// Plays the entry at a place of the tape, and tells how it ends. Where it can't be played, or there is no memory, the hands are as before.
pub(crate) fn play(
    tape: &mut Tape,
    place: usize,
    shape: Shape,
    used: &[u32],
    hands: &mut Hands,
    answer: &Answer,
) -> Result<End, Stop>
    requires { hands.old.made < 4294967295 }
    ensures plays { Plays shape used.now (slice_get tape.old place) hands.old hands.new answer.now result }
    ensures same { tape.new ≡ tape.old }
    ensures fits { OnOk result (place + 1 < 2 ^ 64) }
{
    let alloc = *tape.entries.allocator();
    let entry = match tape.entry(place) {
        Ok(Some(entry)) => entry,
        Ok(None) => return Err(Stop::Fail(Fail::Own(OwnFail::Differs))),
        Err(_) => return Err(Stop::NoMemory),
    };
    let Ok(can) = can_play(alloc, shape, used, hands, answer, &entry) else {
        return Err(Stop::NoMemory);
    };
    if !can {
        return Err(Stop::Fail(Fail::Own(OwnFail::Differs)));
    }
    if !act(hands, &entry) {
        return Err(Stop::NoMemory);
    }
    Ok(entry.end)
}
