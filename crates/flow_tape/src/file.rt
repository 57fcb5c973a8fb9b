//! From tapes to their file.

ghost use Rattle.std.specs.Prelude.{◌≡◌, ◌++◌, ◌∷◌, ◌≤◌, ◌<◌, [], ℕ, List, Some, slice_get, length, map, OnOk, IfOk};
ghost use Rattle.flow_own.specs.declared.tape.Entry.{Entry};
ghost use Rattle.std.specs.List.{flat_map, AllByRecursion};
ghost use Rattle.std.specs.Option.{option_copied};
ghost use Rattle.flow_own.specs.Recorded.{IsShort, IsOfPart, IsEntryWritable, IsTapeWritable};
ghost use Rattle.flow_own.specs.Reels.{reeled};
ghost use Rattle.flow_tape.specs.Files.{four, eight, kind_byte, answer_written, made_written, dropped_written, end_written, entry_written, tape_written, IsWritable};
ghost use Rattle.flow_tape.specs.Fields.{IsWhole, any_eight, answer_fields, made_fields, dropped_fields, end_fields, entry_fields, tape_fields};
ghost use Rattle.flow_tape.specs.Faults.{IsFileOf};

use crate::law::bytes_are_small;
use flow_component::{Answer, OwnFail, Wish};
use flow_items::Text;
use flow_own::{End, Entry, Reel, Tape};
use flow_packet::{Kind, PacketId};
use std::alloc::{AllocError, Global};

fn put_byte(bytes: &mut Vec<u8>, byte: u8) -> Result<(), AllocError>
    ensures { OnOk result (bytes.new.items ≡ bytes.old.items ++ byte ∷ []) }
{
    bytes.push(byte)?;
    Ok(())
}

fn put_four(bytes: &mut Vec<u8>, number: u32) -> Result<(), AllocError>
    ensures { OnOk result (bytes.new.items ≡ bytes.old.items ++ four number) }
{
    bytes.extend_from_slice(&number.to_le_bytes())
}

fn put_eight(bytes: &mut Vec<u8>, number: u64) -> Result<(), AllocError>
    ensures { OnOk result (bytes.new.items ≡ bytes.old.items ++ eight number) }
{
    bytes.extend_from_slice(&number.to_le_bytes())
}

// A byte, and a number of four bytes.
fn put_case(bytes: &mut Vec<u8>, case: u8, number: u32) -> Result<(), AllocError>
    ensures { OnOk result (bytes.new.items ≡ bytes.old.items ++ case ∷ four number) }
{
    put_byte(bytes, case)?;
    put_four(bytes, number)
}

// A byte, and an id.
fn put_id(bytes: &mut Vec<u8>, case: u8, id: u64) -> Result<(), AllocError>
    ensures { OnOk result (bytes.new.items ≡ bytes.old.items ++ case ∷ eight id) }
{
    put_byte(bytes, case)?;
    put_eight(bytes, id)
}

fn put_answer(bytes: &mut Vec<u8>, answer: &Answer) -> Result<(), AllocError>
    ensures bytes { OnOk result (bytes.new.items ≡ bytes.old.items ++ answer_written answer.now) }
    ensures whole { OnOk result (AllByRecursion IsWhole (answer_fields answer.now)) }
{
    match answer {
        Answer::Start => put_byte(bytes, 0),
        Answer::Got(id) => put_id(bytes, 1, id.number()),
        Answer::End => put_byte(bytes, 2),
        Answer::Sent => put_byte(bytes, 3),
        Answer::Level(level) => put_case(bytes, 4, *level),
    }
}

fn kind_byte(kind: Kind) -> u8
    ensures { result ≡ kind_byte kind }
{
    match kind {
        Kind::Normal => 1,
        Kind::Open => 2,
        Kind::Close => 3,
    }
}

fn put_text(bytes: &mut Vec<u8>, text: &[u8]) -> Result<(), AllocError>
    ensures bytes { OnOk result (bytes.new.items ≡ bytes.old.items ++ text.now) }
    ensures whole { AllByRecursion (λ b. b < 256) text.now }
{
    bytes.extend_from_slice(text)
}

fn put_made(bytes: &mut Vec<u8>, made: &Option<(Kind, Text)>) -> Result<(), AllocError>
    requires { IsShort made.now }
    ensures bytes { OnOk result (bytes.new.items ≡ bytes.old.items ++ made_written made.now) }
    ensures whole { OnOk result (AllByRecursion IsWhole (made_fields made.now)) }
{
    match made {
        Some((kind, text)) => {
            put_case(bytes, kind_byte(*kind), text.len() as u32)?;
            put_text(bytes, text.as_slice())
        }
        None => put_byte(bytes, 0),
    }
}

fn put_ids(bytes: &mut Vec<u8>, ids: &[PacketId]) -> Result<(), AllocError>
    ensures bytes { OnOk result (bytes.new.items ≡ bytes.old.items ++ flat_map eight ids.now) }
    ensures whole { OnOk result (AllByRecursion IsWhole (map any_eight ids.now)) }
{
    for id in ids {
        put_eight(bytes, id.number())?;
    }
    Ok(())
}

fn put_dropped(bytes: &mut Vec<u8>, ids: &[PacketId]) -> Result<(), AllocError>
    requires { length ids.now ≤ 4096 }
    ensures bytes { OnOk result (bytes.new.items ≡ bytes.old.items ++ dropped_written ids.now) }
    ensures whole { OnOk result (AllByRecursion IsWhole (dropped_fields ids.now)) }
{
    bytes.extend_from_slice(&(ids.len() as u16).to_le_bytes())?;
    put_ids(bytes, ids)
}

fn put_end(bytes: &mut Vec<u8>, end: &End) -> Result<(), AllocError>
    ensures bytes { OnOk result (bytes.new.items ≡ bytes.old.items ++ end_written end.now) }
    ensures whole { OnOk result (AllByRecursion IsWhole (end_fields end.now)) }
{
    match end {
        End::Wish(Wish::Receive(port)) => put_case(bytes, 0, port.0),
        End::Wish(Wish::Send(port, id)) => {
            put_case(bytes, 1, port.0)?;
            put_eight(bytes, id.number())
        }
        End::Wish(Wish::Level(port)) => put_case(bytes, 2, port.0),
        End::Wish(Wish::Deactivate) => put_byte(bytes, 3),
        End::Fail(OwnFail::Own(number)) => put_case(bytes, 4, *number),
        End::Fail(OwnFail::Packet(id)) => put_id(bytes, 5, *id),
        End::Fail(OwnFail::Port(port)) => put_case(bytes, 6, *port),
        End::Fail(OwnFail::TapeLimit) => put_byte(bytes, 7),
        End::Fail(OwnFail::Differs) => Ok(()),
    }
}

fn put_entry(bytes: &mut Vec<u8>, entry: &Entry) -> Result<(), AllocError>
    requires { IsEntryWritable entry.now }
    ensures bytes { OnOk result (bytes.new.items ≡ bytes.old.items ++ entry_written entry.now) }
    ensures whole { OnOk result (AllByRecursion IsWhole (entry_fields entry.now)) }
{
    put_answer(bytes, &entry.answer)?;
    put_made(bytes, &entry.made)?;
    put_dropped(bytes, entry.dropped.as_slice())?;
    put_end(bytes, &entry.end)
}

fn put_entries(bytes: &mut Vec<u8>, entries: &[Entry]) -> Result<(), AllocError>
    requires { (k : ℕ) (entry : Entry) → slice_get entries.now k ≡ Some entry → IsEntryWritable entry }
    ensures bytes { OnOk result (bytes.new.items ≡ bytes.old.items ++ flat_map entry_written entries.now) }
    ensures whole { OnOk result (AllByRecursion IsWhole (flat_map entry_fields entries.now)) }
{
    for entry in entries {
        put_entry(bytes, entry)?;
    }
    Ok(())
}

// Entries that were read from a file are written as they stand there.
fn put_reel(bytes: &mut Vec<u8>, reel: &Reel) -> Result<(), AllocError>
    ensures bytes { OnOk result (bytes.new.items ≡ bytes.old.items ++ flat_map entry_written reel.now) }
    ensures whole { AllByRecursion IsWhole (flat_map entry_fields reel.now) }
{
    let (entries, behind) = reel.bytes();
    bytes_are_small(entries);
    bytes_are_small(behind);
    put_text(bytes, entries)
}

fn put_read(bytes: &mut Vec<u8>, reel: Option<&Reel>) -> Result<(), AllocError>
    ensures bytes { OnOk result (bytes.new.items ≡ bytes.old.items ++ flat_map entry_written (reeled (option_copied reel.entry))) }
    ensures whole { AllByRecursion IsWhole (flat_map entry_fields (reeled (option_copied reel.entry))) }
{
    match reel {
        Some(reel) => put_reel(bytes, reel),
        None => Ok(()),
    }
}

fn put_tape(bytes: &mut Vec<u8>, tape: &Tape) -> Result<(), AllocError>
    requires { IsTapeWritable tape.now }
    ensures bytes { OnOk result (bytes.new.items ≡ bytes.old.items ++ tape_written tape.now) }
    ensures whole { OnOk result (AllByRecursion IsWhole (tape_fields tape.now)) }
{
    let (reel, entries) = tape.parts();
    put_four(bytes, tape.len() as u32)?;
    put_read(bytes, reel)?;
    put_entries(bytes, entries)
}

fn put_tapes(bytes: &mut Vec<u8>, tapes: &[Tape]) -> Result<(), AllocError>
    requires { (k : ℕ) (tape : List Entry) → slice_get tapes.now k ≡ Some tape → IsTapeWritable tape }
    ensures bytes { OnOk result (bytes.new.items ≡ bytes.old.items ++ flat_map tape_written tapes.now) }
    ensures whole { OnOk result (AllByRecursion IsWhole (flat_map tape_fields tapes.now)) }
{
    for tape in tapes {
        put_tape(bytes, tape)?;
    }
    Ok(())
}

/// The file of these tapes.
pub fn to_bytes(alloc: Global, tapes: &[Tape]) -> Result<Vec<u8>, AllocError>
    requires { IsWritable tapes.now }
    ensures { IfOk result (λ bytes. IsFileOf tapes.now bytes.items) }
{
    let mut bytes = Vec::new(alloc);
    bytes.extend_from_slice(b"FLOWT001")?;
    put_four(&mut bytes, tapes.len() as u32)?;
    put_tapes(&mut bytes, tapes)?;
    Ok(bytes)
}
