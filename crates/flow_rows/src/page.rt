//! How a file of rows is cut.
use std::alloc::{AllocError, Global};

/// A line that says something to be done or something wanted, and the lines of text behind it.
#[derive(Drop)]
pub struct Step<'a> {
    pub word: &'a str,
    /// What stands in the line behind the word.
    pub rest: &'a str,
    pub lines: Vec<&'a str>,
}

/// What stands behind a line `row NAME`, up to the next one.
#[derive(Drop)]
pub struct NamedRow<'a> {
    pub name: &'a str,
    pub steps: Vec<Step<'a>>,
}

/// A file of rows.
#[derive(Drop)]
pub struct RowFile<'a> {
    /// What stands before the first row: each row begins with it.
    pub common: Vec<Step<'a>>,
    pub rows: Vec<NamedRow<'a>>,
}

/// A line's first word and what stands behind the blank after it.
pub fn first_word(line: &str) -> (&str, &str) {
    line.split_once(' ').unwrap_or((line, ""))
}

/// Whether a line is one of text.
fn is_text(line: &str) -> bool {
    line.starts_with('|')
        || line.starts_with(':')
        || line.starts_with('*')
        || line.starts_with("x ")
}

impl<'a> RowFile<'a> {
    /// The rows of a text. Empty lines, and those that begin with `#`, are remarks.
    pub fn of(alloc: Global, text: &'a str) -> Result<RowFile<'a>, AllocError> {
        let mut page = RowFile {
            common: Vec::new(alloc),
            rows: Vec::new(alloc),
        };
        for line in text.lines() {
            if !line.is_empty() && !line.starts_with('#') {
                page.add(alloc, line)?;
            }
        }
        Ok(page)
    }

    fn add(&mut self, alloc: Global, line: &'a str) -> Result<(), AllocError> {
        let (word, rest) = first_word(line);
        if word == "row" {
            let steps = Vec::new(alloc);
            self.rows.push(NamedRow { name: rest, steps })?;
            return Ok(());
        }
        match self.rows.last_mut() {
            Some(row) => add_line(alloc, &mut row.steps, line),
            None => add_line(alloc, &mut self.common, line),
        }
    }
}

// Adds a line of text to the last step, and any other line as a step.
fn add_line<'a>(alloc: Global, steps: &mut Vec<Step<'a>>, line: &'a str) -> Result<(), AllocError> {
    if is_text(line) {
        if let Some(step) = steps.last_mut() {
            step.lines.push(line)?;
            return Ok(());
        }
    }
    let (word, rest) = first_word(line);
    let lines = Vec::new(alloc);
    steps.push(Step { word, rest, lines })?;
    Ok(())
}
