//! A drawing to its last byte, in both languages.
use flow_drawing::{Drawing, Edge, Form, Given, Mark, Node, Remark, Row, Setting};
use flow_items::{Items, Text};
use std::alloc::Global;
use std::process::Abort;
use std::test::Fail;

fn text(rt: &impl Abort, alloc: Global, bytes: &[u8]) -> Text {
    Text::from_slice(alloc, bytes).expect(rt, "no memory")
}

fn put<T: Drop>(rt: &impl Abort, items: &mut Items<T>, item: T) {
    if items.push(item).is_err() {
        panic!(rt; "no memory");
    }
}

fn remark(rt: &impl Abort, alloc: Global, note: &[u8], mark: Mark) -> Remark {
    Remark {
        note: text(rt, alloc, note),
        mark,
    }
}

// An option in the box of its process.
fn options(rt: &impl Abort, alloc: Global) -> Items<Setting> {
    let mut options = Items::new(alloc);
    let setting = Setting {
        port: text(rt, alloc, b"P"),
        text: text(rt, alloc, b"\\d"),
    };
    put(rt, &mut options, setting);
    options
}

// A box, and in it a process of the kind K; and another one, which is folded.
fn rows(rt: &impl Abort, alloc: Global) -> Items<Row> {
    let mut rows = Items::new(alloc);
    let opens = Row::Opens {
        process: 0,
        depth: 0,
        name: text(rt, alloc, b"B"),
    };
    put(rt, &mut rows, opens);
    let node = Node {
        number: 0,
        name: text(rt, alloc, b"B.x"),
        kind: text(rt, alloc, b"K"),
        options: options(rt, alloc),
        remark: remark(rt, alloc, b"idle", Mark::Blocked),
    };
    put(rt, &mut rows, Row::Shows(node));
    put(rt, &mut rows, Row::Closes);
    let folds = Row::Folds {
        process: 1,
        name: text(rt, alloc, b"C"),
        mark: Mark::Cycle,
    };
    put(rt, &mut rows, folds);
    rows
}

// A text of process 0: a file that it writes, or an initial text.
fn given(rt: &impl Abort, alloc: Global, option: bool, port: &[u8], bytes: &[u8]) -> Given {
    Given {
        process: 0,
        option,
        place: 0,
        port: text(rt, alloc, port),
        text: text(rt, alloc, bytes),
    }
}

fn givens(rt: &impl Abort, alloc: Global) -> Items<Given> {
    let mut givens = Items::new(alloc);
    let file = given(rt, alloc, true, b"O", b"\"7\"");
    put(rt, &mut givens, file);
    let initial = given(rt, alloc, false, b"I", b"8");
    put(rt, &mut givens, initial);
    givens
}

// An end of the process to which it sends itself.
fn edges(rt: &impl Abort, alloc: Global) -> Items<Edge> {
    let mut edges = Items::new(alloc);
    let edge = Edge {
        from: 0,
        output: text(rt, alloc, b"*OUT"),
        to: 0,
        input: text(rt, alloc, b"IN[1]"),
        capacity: Some(3),
        automatic: true,
        remark: remark(rt, alloc, b"", Mark::Plain),
    };
    put(rt, &mut edges, edge);
    edges
}

const MERMAID: &[u8] =
    b"graph LR\nsubgraph b0_0[\"subnet B\"]\np0[\"B.x: K<br>P '#92;d'<br>idle\"]\nstyle p0 stroke-dasharray:4\nend\np1[[\"subnet C\"]]\nstyle p1 stroke:red,stroke-width:3px\np0 -->|\"O\"| o0_0([\"'#34;7#34;'\"])\nt0_0([\"'8'\"]) -->|\"I\"| p0\np0 -.->|\"#42;OUT, IN[1], capacity 3\"| p0\n";

const DOT: &[u8] =
    b"digraph {\nrankdir=LR\nnode [shape=box]\nsubgraph cluster_0_0 {\nlabel=\"subnet B\"\np0 [label=\"B.x: K\\nP '\\\\d'\\nidle\", style=dashed]\n}\np1 [peripheries=2, label=\"subnet C\", color=red, penwidth=3]\no0_0 [shape=oval, label=\"'\\\"7\\\"'\"]\np0 -> o0_0 [label=\"O\"]\nt0_0 [shape=oval, label=\"'8'\"]\nt0_0 -> p0 [label=\"I\"]\np0 -> p0 [label=\"*OUT, IN[1], capacity 3\", style=dotted]\n}\n";

fn check_print(
    rt: &impl Abort,
    alloc: Global,
    drawing: &Drawing,
    form: Form,
    wanted: &[u8],
) -> Result<(), Fail> {
    let printed = drawing.print(alloc, form)?;
    assert_eq!(rt; printed.as_slice(), wanted);
    Ok(())
}

#[test]
fn a_drawing_is_spelled(rt: HostRuntime) -> Result<(), Fail> {
    let alloc = rt.alloc();
    let drawing = Drawing {
        rows: rows(&rt, alloc),
        givens: givens(&rt, alloc),
        edges: edges(&rt, alloc),
    };
    check_print(&rt, alloc, &drawing, Form::Mermaid, MERMAID)?;
    check_print(&rt, alloc, &drawing, Form::Dot, DOT)
}
