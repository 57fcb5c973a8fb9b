//! A network and an input for it, as large as a number says. `flow --make`, the benchmarks and the trials run it, since
//! whoever has the number has both. The contract of `make` says which bytes they are.
#![tactic(auto)]

ghost use Rattle.std.specs.Prelude.{◌≡◌, ◌≤◌, ◌+◌, ◌*◌, IfOk, length};
ghost use Rattle.std.specs.Str.Lines.{lines as lines_of};
ghost use Rattle.flow_make.specs.Lines.{text_of};
ghost use Rattle.flow_make.specs.Input.{input_lines, lines_for_one, longest_word, words_in_line};
ghost use Rattle.flow_make.specs.Network.{network_lines};

mod generator;
mod input;

use flow_items::Text;
use flow_limits::NUMBER_LIMIT;
use input::make_input;
use std::alloc::{AllocError, Global};

/// What is made from a number.
#[derive(Debug, Drop)]
pub struct Made {
    /// The text of a network file, the same for each number. Its one reader reads the file `in`.
    pub network: Text,
    /// The bytes of that file.
    pub input: Text,
}

const NETWORK: &[u8] = b"flow 1
'in' -> FILE Read(ReadLines)
Read OUT -> IN Words(Words)
Words OUT -> IN Copy(Copy)
Copy OUT[0] -> IN Narrow(Fill)
Copy OUT[1] -> IN Wide(Fill)
Copy OUT[2] -> IN Count(Count)
'20' -> SIZE Narrow
'60' -> SIZE Wide
Narrow OUT -> IN A(WriteLines)
Wide OUT -> IN B(WriteLines)
Count COUNT -> IN C(WriteLines)
'a' -> FILE A
'b' -> FILE B
'c' -> FILE C
";

/// A network, and an input for it of 1,000 lines for each one of the number. A line has ten words, which are pseudo-random: the same
/// number makes the same input everywhere. Network and input are this project's own.
pub fn make(alloc: Global, number: u32) -> Result<Made, AllocError>
    requires least { 1 ≤ number }
    requires most { number ≤ NUMBER_LIMIT }

    ensures network { IfOk result (λ made. made.network ≡ text_of network_lines) }
    ensures input { IfOk result (λ made. made.input ≡ text_of (input_lines number)) }

    // So the input is cut into just these lines where it is read, and it isn't too long for a file.
    ensures lines { IfOk result (λ made. lines_of made.input ≡ input_lines number) }
    ensures short { IfOk result (λ made. length made.input ≤ number * lines_for_one * (words_in_line * (longest_word + 1))) }
{
    let network = Text::from_slice(alloc, NETWORK)?;
    let input = make_input(alloc, number)?;
    Ok(Made {
        network,
        input: Text::of(input),
    })
}
