//! Over the bytes of entries, of which nothing is kept: no memory is taken.

ghost use Rattle.flow_own.specs.Reading.{Tells, behind, text_at, many_at, id_at, packet_at, made_at, dropped_at, entry_at};
ghost use Rattle.flow_packet.specs.declared.packet.Kind.{Kind};

use crate::fields::{eight_of, four_of, one_of, two_of};
use crate::read::{answer_of, end_of};
use crate::unread::Unread;
use flow_limits::{HANDS_LIMIT, TEXT_LIMIT};

// So many bytes of text.
fn pass_text(bytes: &[u8], size: usize) -> Result<&[u8], Unread>
    ensures { Tells (λ rest. rest.now) result (behind (text_at size bytes.now)) }
{
    if bytes.len() < size {
        return Err(Unread::Fault(0));
    }
    Ok(&bytes[size..])
}

// The length and the text of a packet, whatever its kind is.
fn pass_packet(bytes: &[u8]) -> Result<&[u8], Unread>
    ensures { (kind : Kind) → Tells (λ rest. rest.now) result (behind (packet_at kind bytes.now)) }
{
    let (size, rest) = four_of(bytes, TEXT_LIMIT as u32)?;
    pass_text(rest, size as usize)
}

#[tactic(auto, unfolding(crate::specs::Reading::made_at))]
fn pass_made(bytes: &[u8]) -> Result<&[u8], Unread>
    ensures { Tells (λ rest. rest.now) result (behind (made_at bytes.now)) }
{
    let (case, rest) = one_of(bytes, 3)?;
    if case == 0 {
        return Ok(rest);
    }
    pass_packet(rest)
}

// So many ids.
fn pass_ids(count: u16, bytes: &[u8]) -> Result<&[u8], Unread>
    ensures { Tells (λ rest. rest.now) result (behind (many_at id_at count bytes.now)) }
{
    let mut rest = bytes;
    for _ in 0..count {
        let (_, after) = eight_of(rest)?;
        rest = after;
    }
    Ok(rest)
}

#[tactic(auto, unfolding(crate::specs::Reading::dropped_at))]
fn pass_dropped(bytes: &[u8]) -> Result<&[u8], Unread>
    ensures { Tells (λ rest. rest.now) result (behind (dropped_at bytes.now)) }
{
    let (count, rest) = two_of(bytes, HANDS_LIMIT as u16)?;
    pass_ids(count, rest)
}

fn pass_entry(bytes: &[u8]) -> Result<&[u8], Unread>
    ensures { Tells (λ rest. rest.now) result (behind (entry_at bytes.now)) }
{
    // Where a value with an id stands beside a slice, a `?` has no rule in the prover.
    let rest = match answer_of(bytes) {
        Ok((_, rest)) => rest,
        Err(stop) => return Err(stop),
    };
    let rest = pass_made(rest)?;
    let rest = pass_dropped(rest)?;
    match end_of(rest) {
        Ok((_, rest)) => Ok(rest),
        Err(stop) => Err(stop),
    }
}

/// Goes over so many entries, and gives the bytes behind them. Nothing of them is kept, and no memory is taken.
pub fn pass_entries(count: usize, bytes: &[u8]) -> Result<&[u8], Unread>
    ensures { Tells (λ rest. rest.now) result (behind (many_at entry_at count bytes.now)) }
{
    let mut rest = bytes;
    for _ in 0..count {
        let after = pass_entry(rest)?;
        rest = after;
    }
    Ok(rest)
}
