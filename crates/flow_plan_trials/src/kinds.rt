// The kinds of the trials.
ghost use Rattle.std.specs.Prelude.{◌≡◌, ◌∷◌, [], codes, true, false, IsTrue};
ghost use Rattle.flow_net.specs.Kinds.{is_table};

use flow_items::{Items, Text};
use flow_plan::{KindSpec, PortClass, PortSpec};
use std::alloc::Global;
use std::process::Abort;

fn port(
    rt: &impl Abort,
    alloc: Global,
    name: &[u8],
    class: PortClass,
    array: bool,
    needed: bool,
) -> PortSpec
    ensures { result ≡ record { name = name.now; class = class; array = array; needed = needed } }
{
    PortSpec {
        name: Text::from_slice(alloc, name).expect(rt, "no memory"),
        class,
        array,
        needed,
    }
}

// A stream as the only port of its side.
fn stream(rt: &impl Abort, alloc: Global, name: &[u8], array: bool) -> Items<PortSpec>
    ensures { result ≡ record { name = name.now; class = PortClass.Stream; array = array; needed = true } ∷ [] }
{
    let only = port(rt, alloc, name, PortClass::Stream, array, true);
    Items::of(vec![in alloc; only].expect(rt, "no memory"))
}

fn kind(
    rt: &impl Abort,
    alloc: Global,
    name: &[u8],
    inputs: Items<PortSpec>,
    outputs: Items<PortSpec>,
) -> KindSpec
    ensures { result ≡ record { name = name.now; inputs = inputs; outputs = outputs } }
{
    KindSpec {
        name: Text::from_slice(alloc, name).expect(rt, "no memory"),
        inputs,
        outputs,
    }
}

const SIZE: PortClass = PortClass::Number {
    least: 1,
    most: 1_048_576,
};

// A kind with an option, an array of inputs and an array of outputs.
fn split(rt: &impl Abort, alloc: Global) -> KindSpec
    ensures { result ≡ record { name = codes "Split"; inputs = record { name = codes "SIZE"; class = PortClass.Number 1 1048576; array = false; needed = true } ∷ record { name = codes "IN"; class = PortClass.Stream; array = true; needed = true } ∷ []; outputs = record { name = codes "OUT"; class = PortClass.Stream; array = true; needed = true } ∷ [] } }
{
    let size = port(rt, alloc, b"SIZE", SIZE, false, true);
    let input = port(rt, alloc, b"IN", PortClass::Stream, true, true);
    let inputs = Items::of(vec![in alloc; size, input].expect(rt, "no memory"));
    let outputs = stream(rt, alloc, b"OUT", true);
    kind(rt, alloc, b"Split", inputs, outputs)
}

// A kind with one input and one output.
fn pass(rt: &impl Abort, alloc: Global) -> KindSpec
    ensures { result ≡ record { name = codes "Pass"; inputs = record { name = codes "IN"; class = PortClass.Stream; array = false; needed = true } ∷ []; outputs = record { name = codes "OUT"; class = PortClass.Stream; array = false; needed = true } ∷ [] } }
{
    let inputs = stream(rt, alloc, b"IN", false);
    let outputs = stream(rt, alloc, b"OUT", false);
    kind(rt, alloc, b"Pass", inputs, outputs)
}

// A kind with an output that may be left open, before one that has to be connected.
fn tally(rt: &impl Abort, alloc: Global) -> KindSpec
    ensures { result ≡ record { name = codes "Tally"; inputs = record { name = codes "IN"; class = PortClass.Stream; array = false; needed = true } ∷ []; outputs = record { name = codes "OUT"; class = PortClass.Stream; array = false; needed = false } ∷ record { name = codes "COUNT"; class = PortClass.Stream; array = false; needed = true } ∷ [] } }
{
    let open = port(rt, alloc, b"OUT", PortClass::Stream, false, false);
    let count = port(rt, alloc, b"COUNT", PortClass::Stream, false, true);
    let outputs = Items::of(vec![in alloc; open, count].expect(rt, "no memory"));
    let inputs = stream(rt, alloc, b"IN", false);
    kind(rt, alloc, b"Tally", inputs, outputs)
}

// The inputs of a kind with two options, the first of which may be left out.
fn marked(rt: &impl Abort, alloc: Global) -> Items<PortSpec>
    ensures { result ≡ record { name = codes "SIZE"; class = PortClass.Number 1 1048576; array = false; needed = false } ∷ record { name = codes "WITH"; class = PortClass.Text; array = false; needed = true } ∷ record { name = codes "IN"; class = PortClass.Stream; array = false; needed = true } ∷ [] }
{
    let size = port(rt, alloc, b"SIZE", SIZE, false, false);
    let with = port(rt, alloc, b"WITH", PortClass::Text, false, true);
    let input = port(rt, alloc, b"IN", PortClass::Stream, false, true);
    Items::of(vec![in alloc; size, with, input].expect(rt, "no memory"))
}

// A kind with these inputs and one output.
fn mark(rt: &impl Abort, alloc: Global) -> KindSpec
    ensures { result ≡ record { name = codes "Mark"; inputs = record { name = codes "SIZE"; class = PortClass.Number 1 1048576; array = false; needed = false } ∷ record { name = codes "WITH"; class = PortClass.Text; array = false; needed = true } ∷ record { name = codes "IN"; class = PortClass.Stream; array = false; needed = true } ∷ []; outputs = record { name = codes "OUT"; class = PortClass.Stream; array = false; needed = true } ∷ [] } }
{
    let inputs = marked(rt, alloc);
    let outputs = stream(rt, alloc, b"OUT", false);
    kind(rt, alloc, b"Mark", inputs, outputs)
}

pub fn kinds(rt: &impl Abort, alloc: Global) -> Vec<KindSpec>
    ensures { IsTrue (is_table result.items) }
{
    let split = split(rt, alloc);
    let pass = pass(rt, alloc);
    let tally = tally(rt, alloc);
    let mark = mark(rt, alloc);
    vec![in alloc; split, pass, tally, mark].expect(rt, "no memory")
}
