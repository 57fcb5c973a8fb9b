//! Rows: a network file, the texts that are given, and what comes of them.
use flow_fill::{FillFault, FillStop, Given, fill, is_third, join, used_of, words_of};
use flow_items::Text;
use flow_limits::FILE_LIMIT;
use std::alloc::{AllocError, Global};
use std::test::Fail;

/// What a row comes to: a text, or a fault.
#[derive(Clone, Copy)]
enum Wanted {
    Text(&'static str),
    Fault(FillFault),
}

/// A network file, the texts that are given its words, and what comes of it.
struct FillRow {
    net: &'static str,
    given: &'static [(&'static str, &'static str)],
    wanted: Wanted,
}

const ROWS: [FillRow; 13] = [
    FillRow {
        net: "flow 3\ninport LOG -> FILE Read(ReadLines)\n",
        given: &[("LOG", "access.log")],
        wanted: Wanted::Text("flow 3\n'access.log' -> FILE Read(ReadLines)\n"),
    },
    // A text beside the word stands where none is given, and no longer where one is.
    FillRow {
        net: "flow 3\ninport SIZE '40' -> SIZE F\n",
        given: &[],
        wanted: Wanted::Text("flow 3\n'40' -> SIZE F\n"),
    },
    FillRow {
        net: "flow 3\ninport SIZE '40' -> SIZE F\n",
        given: &[("SIZE", "7")],
        wanted: Wanted::Text("flow 3\n'7' -> SIZE F\n"),
    },
    // One word leads to two ports; a quote is doubled; blanks before the word are gone, and those behind the arrow stay.
    FillRow {
        net: "flow 3\n  inport A->  X P\n\tinport  A  -> Y[2] Q\n",
        given: &[("A", "it's")],
        wanted: Wanted::Text("flow 3\n'it''s' ->  X P\n'it''s' -> Y[2] Q\n"),
    },
    // An outer input of a subnet stays one, and so do the lines round it.
    FillRow {
        net: "# r\n\nflow  3 \nsubnet S\ninport A -> IN P(K)\nend\ninport A -> IN Q(S)\nQ OUT -> IN W",
        given: &[("A", "x")],
        wanted: Wanted::Text(
            "# r\n\nflow  3 \nsubnet S\ninport A -> IN P(K)\nend\n'x' -> IN Q(S)\nQ OUT -> IN W\n",
        ),
    },
    // What is no word's line by its name or its arrow stays, and the file of a `use` leaves an empty line.
    FillRow {
        net: "flow 3\ninport 2A -> X P\ninport A X P\nuse 'letters.flow'\nuse letters\n",
        given: &[],
        wanted: Wanted::Text("flow 3\ninport 2A -> X P\ninport A X P\n\nuse letters\n"),
    },
    // A file of another version stays to the byte.
    FillRow {
        net: "flow 2\r\ninport A -> X P",
        given: &[],
        wanted: Wanted::Text("flow 2\r\ninport A -> X P"),
    },
    // An empty text is one.
    FillRow {
        net: "flow 3\ninport A -> X P\n",
        given: &[("A", "")],
        wanted: Wanted::Text("flow 3\n'' -> X P\n"),
    },
    FillRow {
        net: "flow 3\ninport B 'b' -> X P\ninport A -> X P\n",
        given: &[],
        wanted: Wanted::Fault(FillFault::NoText(1)),
    },
    FillRow {
        net: "flow 3\ninport A -> X P\n",
        given: &[("A", "x"), ("B", "y")],
        wanted: Wanted::Fault(FillFault::Unknown(1)),
    },
    FillRow {
        net: "flow 3\ninport A -> X P\n",
        given: &[("A", "x"), ("A", "y"), ("B", "z")],
        wanted: Wanted::Fault(FillFault::Twice(1)),
    },
    FillRow {
        net: "flow 3\ninport A -> X P\n",
        given: &[("A", "x\ny")],
        wanted: Wanted::Fault(FillFault::Unspelled(0, 1)),
    },
    FillRow {
        net: "flow 2\n",
        given: &[("A", "x")],
        wanted: Wanted::Fault(FillFault::Unknown(0)),
    },
];

fn all_given(alloc: Global, pairs: &[(&str, &str)]) -> Result<Vec<Given>, AllocError> {
    let mut given = Vec::new(alloc);
    for (word, text) in pairs {
        let word = Text::from_slice(alloc, word.as_bytes())?;
        let text = Text::from_slice(alloc, text.as_bytes())?;
        given.push(Given { word, text })?;
    }
    Ok(given)
}

// Whether the row comes to what it says.
fn holds(alloc: Global, row: &FillRow) -> Result<bool, AllocError> {
    let given = all_given(alloc, row.given)?;
    match (fill(alloc, row.net.as_bytes(), &given), row.wanted) {
        (Ok(text), Wanted::Text(wanted)) => Ok(text.as_slice() == wanted.as_bytes()),
        (Err(FillStop::Fault(fault)), Wanted::Fault(wanted)) => Ok(fault == wanted),
        (Err(FillStop::NoMemory), _) => Err(AllocError),
        _ => Ok(false),
    }
}

#[test]
fn files_are_filled(rt: HostRuntime) -> Result<(), Fail> {
    for row in &ROWS {
        assert!(rt; holds(rt.alloc(), row)?, "of {}", row.net);
    }
    Ok(())
}

// A text of so many bytes for the word A.
fn long_text(alloc: Global, length: usize) -> Result<Vec<Given>, AllocError> {
    let bytes = vec![in alloc; b'x'; length]?;
    let mut given = Vec::new(alloc);
    given.push(Given {
        word: Text::from_slice(alloc, b"A")?,
        text: Text::from_slice(alloc, &bytes)?,
    })?;
    Ok(given)
}

#[test]
fn a_filled_file_is_no_longer_than_a_network_file(rt: HostRuntime) -> Result<(), Fail> {
    let alloc = rt.alloc();
    let net = b"flow 3\ninport A -> X P\n";
    // The header, two quotes, the arrow with what stands behind it, and two line ends.
    let most = FILE_LIMIT as usize - 17;
    let given = long_text(alloc, most)?;
    assert!(rt; fill(alloc, net, &given)?.len() == FILE_LIMIT as usize);
    let given = long_text(alloc, most + 1)?;
    let is_refused = matches!(fill(alloc, net, &given), Err(FillStop::TooLong));
    assert!(rt; is_refused);
    Ok(())
}

// Beginnings of network files, and whether they are of version 3.
const HEADERS: [(&str, bool); 7] = [
    ("flow 3", true),
    ("# a remark\n\n\tflow  3 \r\nrest", true),
    ("", false),
    ("# flow 3\n", false),
    ("flow 2\nflow 3\n", false),
    ("flow 33\n", false),
    ("flow 3 3\n", false),
];

#[test]
fn a_version_is_told_by_the_header(rt: HostRuntime) -> Result<(), Fail> {
    for (net, third) in &HEADERS {
        assert!(rt; is_third(net.as_bytes()) == *third, "of {net}");
    }
    Ok(())
}

#[test]
fn words_have_their_lines(rt: HostRuntime) -> Result<(), Fail> {
    let words = words_of(
        rt.alloc(),
        b"\nflow 3\nsubnet S\ninport A -> X P\nend\ninport B 'it''s' -> Y P\n",
    )?;
    assert!(rt; words.len() == 1);
    for word in &words {
        assert!(rt; word.line == 6 && word.name.as_slice() == b"B".as_slice());
        let beside = word.beside.as_ref().map(|text| text.as_slice());
        assert!(rt; beside == Some(b"it's".as_slice()));
    }
    Ok(())
}

#[test]
fn subnets_of_used_files_stand_behind(rt: HostRuntime) -> Result<(), Fail> {
    let alloc = rt.alloc();
    let net = b"flow 3\nuse 'letters.flow'\nA(S)";
    let used = used_of(alloc, net)?;
    assert!(rt; used.len() == 1 && used[0].as_slice() == b"letters.flow".as_slice());
    let mut files = Vec::new(alloc);
    files.push(b"flow 1\nX(K)\nsubnet S\nY(K)\nend\nZ(K)\nsubnet T\nend\r\n".to_vec(alloc)?)?;
    let text = fill(alloc, net, &[])?;
    let joined = join(alloc, &text, &files)?;
    let wanted = b"flow 3\n\nA(S)\n\n\nsubnet S\nY(K)\nend\n\nsubnet T\nend\n".as_slice();
    assert!(rt; joined.as_slice() == wanted);
    Ok(())
}
