//! A whole file.
ghost use Rattle.std.specs.Prelude.{◌≡◌, IfOk, IfErr, map};
ghost use Rattle.flow_parse.specs.declared.value.NetText.{NetText};
ghost use Rattle.flow_parse.specs.declared.fault.NetFault.{NetFault};
ghost use Rattle.flow_parse.specs.Files.{LeadsTo, Spells, Refused};
ghost use Rattle.flow_parse.specs.Reader.{Gives, IfFault};
ghost use Rattle.flow_parse.specs.Values.{IsNetText};

use crate::fault::ParseStop;
use crate::reader::Reader;
use crate::value::NetText;
use flow_text::lines;
use std::alloc::Global;

fn read_lines(alloc: Global, lines: &[Vec<u8>]) -> Result<NetText, ParseStop>
    ensures { Gives result (λ outcome. LeadsTo 1 None (map (λ line. line.items) lines.now) outcome) }
{
    let mut reader = Reader::new(alloc);
    'lines: for (i, line) in lines.iter().enumerate() {
        reader.line(alloc, i as u64 + 1, line.as_slice())?;
    }
    reader.finish(alloc, lines.len() as u64 + 1)
}

/// The value that a network file spells, or its first fault. Lines are looked at in order, and in a line
/// the reasons in the order of `Reason`. The format is this project's own.
pub fn parse(alloc: Global, bytes: &[u8]) -> Result<NetText, ParseStop>
    // A value is one that the bytes spell.
    ensures spelled { IfOk result (λ value. Spells bytes.now value) }
    // A value is a valid one.
    ensures valid { IfOk result IsNetText }
    // A fault is one that they are refused for.
    ensures refused { IfErr result (λ stop. IfFault stop (λ fault. Refused bytes.now fault)) }
    // Where they spell a value, it is the answer, unless memory runs out.
    ensures value { (value : NetText) → Spells bytes.now value → Gives result (λ outcome. outcome ≡ Ok value) }
    // Where they are refused for a fault, it is the answer, unless memory runs out.
    ensures fault { (fault : NetFault) → Refused bytes.now fault → Gives result (λ outcome. outcome ≡ Err fault) }
{
    let lines = lines(alloc, bytes)?;
    read_lines(alloc, lines.as_slice())
}
