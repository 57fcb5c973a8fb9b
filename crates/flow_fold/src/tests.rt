//! Rows: the texts of a stretch, and what is told of it.

use crate::{Count, Fold, Glue};
use flow_component::{Fail as Cause, Stop};
use flow_limits::TEXT_LIMIT;
use std::test::Fail;

/// The texts of a stretch, and what a Glue tells of them that has this text between each two.
struct GlueRow {
    between: &'static str,
    texts: &'static [&'static str],
    told: &'static str,
}

const GLUED: [GlueRow; 6] = [
    GlueRow {
        between: ", ",
        texts: &["a", "b", "c"],
        told: "a, b, c",
    },
    GlueRow {
        between: ", ",
        texts: &["a"],
        told: "a",
    },
    GlueRow {
        between: "",
        texts: &["a", "b"],
        told: "ab",
    },
    // An empty text is a text too.
    GlueRow {
        between: "-",
        texts: &["", ""],
        told: "-",
    },
    GlueRow {
        between: "-",
        texts: &["", "a", ""],
        told: "-a-",
    },
    // An empty substream.
    GlueRow {
        between: "-",
        texts: &[],
        told: "",
    },
];

/// The texts of a stretch, and what a Count tells of them.
struct CountRow {
    texts: &'static [&'static str],
    told: &'static str,
}

const COUNTED: [CountRow; 2] = [
    CountRow {
        texts: &["a", "", "a"],
        told: "3",
    },
    CountRow {
        texts: &[],
        told: "0",
    },
];

// The first text that is told of a stretch with these.
fn first_told<F: Fold>(fold: &F, texts: &[&str]) -> Result<Vec<u8>, Fail> {
    let mut state = fold.start();
    for text in texts {
        let bytes = text.as_bytes();
        if bytes.len() > TEXT_LIMIT || fold.take(&mut state, bytes).is_err() {
            return Err("a text wasn't taken".into());
        }
    }
    match fold.tell(&state, 0)? {
        Some(told) => Ok(told),
        None => Err("nothing is told".into()),
    }
}

#[test]
fn texts_are_glued(rt: HostRuntime) -> Result<(), Fail> {
    for row in &GLUED {
        let between = row.between.as_bytes().to_vec(rt.alloc())?;
        if between.len() > TEXT_LIMIT {
            return Err("a row is too long".into());
        }
        let told = first_told(&Glue::new(rt.alloc(), between), row.texts)?;
        assert_eq!(rt; told.as_slice(), row.told.as_bytes());
    }
    Ok(())
}

#[test]
fn texts_are_counted(rt: HostRuntime) -> Result<(), Fail> {
    for row in &COUNTED {
        let told = first_told(&Count::new(rt.alloc()), row.texts)?;
        assert_eq!(rt; told.as_slice(), row.told.as_bytes());
    }
    Ok(())
}

#[test]
fn a_glue_refuses_what_is_too_long(rt: HostRuntime) -> Result<(), Fail> {
    let glue = Glue::new(rt.alloc(), Vec::new(rt.alloc()));
    let longest = vec![in rt.alloc(); b'x'; TEXT_LIMIT]?;
    let mut state = glue.start();
    assert_eq!(rt; glue.take(&mut state, &longest), Ok(()));
    assert_eq!(rt;
        glue.take(&mut state, b"y"),
        Err(Stop::Fail(Cause::TextLimit(1_048_577)))
    );
    Ok(())
}
