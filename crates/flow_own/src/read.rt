//! From the bytes of entries to the entries.

ghost use Rattle.std.specs.Prelude.{◌≡◌};
ghost use Rattle.flow_own.specs.Reading.{Gives, Tells, many_at, id_at, answer_at, kind_by, made_at, packet_at, dropped_at, send_at, end_with, end_at, entry_at};

use crate::fields::{any_of, eight_of, four_of, one_of, text_of, two_of};
use crate::tape::{End, Entry};
use crate::unread::Unread;
use flow_component::{Answer, OwnFail, Port, Wish};
use flow_items::{Items, Text};
use flow_limits::{HANDS_LIMIT, TEXT_LIMIT};
use flow_packet::{Kind, PacketId};
use std::alloc::Global;

#[tactic(auto, unfolding(crate::specs::Reading::answer_at))]
pub(crate) fn answer_of(bytes: &[u8]) -> Result<(Answer, &[u8]), Unread>
    ensures { Tells (λ x. (x.0, x.1.now)) result (answer_at bytes.now) }
{
    let (case, rest) = one_of(bytes, 4)?;
    match case {
        0 => Ok((Answer::Start, rest)),
        1 => {
            let (id, rest) = eight_of(rest)?;
            Ok((Answer::Got(PacketId::of_number(id)), rest))
        }
        2 => Ok((Answer::End, rest)),
        3 => Ok((Answer::Sent, rest)),
        _ => {
            let (level, rest) = any_of(rest)?;
            Ok((Answer::Level(level), rest))
        }
    }
}

// The kind of this case, which isn't 0.
fn kind_of(case: u8) -> Kind
    ensures { result ≡ kind_by case }
{
    match case {
        1 => Kind::Normal,
        2 => Kind::Open,
        _ => Kind::Close,
    }
}

#[tactic(auto, unfolding(crate::specs::Reading::packet_at))]
fn packet_of(
    alloc: Global,
    kind: Kind,
    bytes: &[u8],
) -> Result<(Option<(Kind, Text)>, &[u8]), Unread>
    ensures { Gives (λ x. (x.0, x.1.now)) result (packet_at kind bytes.now) }
{
    let (size, rest) = four_of(bytes, TEXT_LIMIT as u32)?;
    let (text, rest) = text_of(alloc, rest, size as usize)?;
    Ok((Some((kind, text)), rest))
}

#[tactic(auto, unfolding(crate::specs::Reading::made_at))]
fn made_of(alloc: Global, bytes: &[u8]) -> Result<(Option<(Kind, Text)>, &[u8]), Unread>
    ensures { Gives (λ x. (x.0, x.1.now)) result (made_at bytes.now) }
{
    let (case, rest) = one_of(bytes, 3)?;
    if case == 0 {
        return Ok((None, rest));
    }
    packet_of(alloc, kind_of(case), rest)
}

// So many ids.
fn ids_of(alloc: Global, count: u16, bytes: &[u8]) -> Result<(Vec<PacketId>, &[u8]), Unread>
    ensures { Gives (λ x. (x.0.items, x.1.now)) result (many_at id_at count bytes.now) }
{
    let mut ids = Vec::new(alloc);
    let mut rest = bytes;
    for _ in 0..count {
        let (id, after) = eight_of(rest)?;
        ids.push(PacketId::of_number(id))?;
        rest = after;
    }
    Ok((ids, rest))
}

#[tactic(auto, unfolding(crate::specs::Reading::dropped_at))]
fn dropped_of(alloc: Global, bytes: &[u8]) -> Result<(Items<PacketId>, &[u8]), Unread>
    ensures { Gives (λ x. (x.0, x.1.now)) result (dropped_at bytes.now) }
{
    let (count, rest) = two_of(bytes, HANDS_LIMIT as u16)?;
    let (ids, rest) = ids_of(alloc, count, rest)?;
    Ok((Items::of(ids), rest))
}

#[tactic(auto, unfolding(crate::specs::Reading::send_at))]
fn send_of(bytes: &[u8]) -> Result<(End, &[u8]), Unread>
    ensures { Tells (λ x. (x.0, x.1.now)) result (send_at bytes.now) }
{
    let (port, rest) = any_of(bytes)?;
    let (id, rest) = eight_of(rest)?;
    let wish = Wish::Send(Port(port), PacketId::of_number(id));
    Ok((End::Wish(wish), rest))
}

// An end of one of the cases that have one number of four bytes.
fn end_with_number(case: u8, number: u32) -> End
    ensures { result ≡ end_with case number }
{
    match case {
        0 => End::Wish(Wish::Receive(Port(number))),
        2 => End::Wish(Wish::Level(Port(number))),
        4 => End::Fail(OwnFail::Own(number)),
        _ => End::Fail(OwnFail::Port(number)),
    }
}

#[tactic(auto, unfolding(crate::specs::Reading::end_at))]
pub(crate) fn end_of(bytes: &[u8]) -> Result<(End, &[u8]), Unread>
    ensures { Tells (λ x. (x.0, x.1.now)) result (end_at bytes.now) }
{
    let (case, rest) = one_of(bytes, 7)?;
    match case {
        1 => send_of(rest),
        3 => Ok((End::Wish(Wish::Deactivate), rest)),
        5 => {
            let (id, rest) = eight_of(rest)?;
            Ok((End::Fail(OwnFail::Packet(id)), rest))
        }
        7 => Ok((End::Fail(OwnFail::TapeLimit), rest)),
        _ => {
            let (number, rest) = any_of(rest)?;
            Ok((end_with_number(case, number), rest))
        }
    }
}

#[tactic(auto, unfolding(crate::specs::Reading::entry_at))]
pub(crate) fn entry_of(alloc: Global, bytes: &[u8]) -> Result<(Entry, &[u8]), Unread>
    ensures { Gives (λ x. (x.0, x.1.now)) result (entry_at bytes.now) }
{
    // Where a value with an id stands beside a slice, a `?` has no rule in the prover.
    let (answer, rest) = match answer_of(bytes) {
        Ok(read) => read,
        Err(stop) => return Err(stop),
    };
    let (made, rest) = made_of(alloc, rest)?;
    let (dropped, rest) = dropped_of(alloc, rest)?;
    let (end, rest) = match end_of(rest) {
        Ok(read) => read,
        Err(stop) => return Err(stop),
    };
    let entry = Entry {
        answer,
        made,
        dropped,
        end,
    };
    Ok((entry, rest))
}
