//! Which Close belongs to which Open.

ghost use Rattle.std.specs.Prelude.{◌≡◌, ◌+◌, ◌^◌, ◌<◌, length, OnOk, IfOk, IfSome, Ok, None};
ghost use Rattle.flow_bracket.specs.Substreams.{Overcloses, IsNested, AreSubstreams};
ghost use Rattle.flow_bracket.specs.Scans.{Scanned};

use flow_packet::Kind;
use std::alloc::{AllocError, Global};

// Goes one place back: a Close waits for its Open, and an Open takes the nearest Close that waits.
fn step_back(
    kinds: &[Kind],
    place: u32,
    closes: &mut Vec<u32>,
    pairs: &mut Vec<(u32, u32)>,
) -> Result<(), AllocError>
    requires there { place < length kinds.now }
    requires scanned { Scanned kinds.now (place + 1) closes.old.items pairs.old.items }
    ensures { OnOk result (Scanned kinds.now place closes.new.items pairs.new.items) }
{
    match kinds[place as usize] {
        Kind::Normal => Ok(()),
        Kind::Close => {
            closes.push(place)?;
            Ok(())
        }
        Kind::Open => {
            let Some(close) = closes.pop() else {
                return Ok(());
            };
            pairs.push((place, close))?;
            Ok(())
        }
    }
}

/// The places of each Open and its Close, in the order of the Opens. An Open without a Close isn't
/// listed. `None` where some prefix has more Close than Open.
pub fn substreams(alloc: Global, kinds: &[Kind]) -> Result<Option<Vec<(u32, u32)>>, AllocError>
    requires { length kinds.now < 2 ^ 32 }
    ensures none { result ≡ Ok None → Overcloses kinds.now }
    ensures nested { IfOk result (λ found. IfSome found (λ _. IsNested kinds.now)) }
    ensures pairs { IfOk result (λ found. IfSome found (λ pairs. AreSubstreams kinds.now pairs.items)) }
{
    let mut closes = Vec::new(alloc);
    let mut pairs = Vec::new(alloc);
    let mut place = kinds.len() as u32;
    while place > 0 {
        place -= 1;
        step_back(kinds, place, &mut closes, &mut pairs)?;
    }
    if !closes.is_empty() {
        return Ok(None);
    }
    pairs.reverse();
    Ok(Some(pairs))
}
