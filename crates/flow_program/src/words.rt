//! Words that are no command line: the first that is wrong, and what there would be.
use flow_explain::{nearest, put_word};
use flow_given::gives_text;
use flow_limits::{NUMBER_LIMIT, WORKER_LIMIT};
use flow_text::decimal;
use std::alloc::{AllocError, Global};

/// What stands behind an option.
#[derive(Clone, Copy, PartialEq, Eq)]
enum Value {
    Nothing,
    File,
    Number { least: u32, most: u32 },
}

/// An option: its name, its value, and the options with which it may stand.
#[derive(Clone, Copy)]
struct Asked {
    name: &'static str,
    value: Value,
    beside: &'static [&'static str],
    /// Whether a network file stands beside it.
    takes_net: bool,
}

const OPTIONS: [Asked; 15] = [
    Asked {
        name: "--check",
        value: Value::Nothing,
        beside: &[],
        takes_net: true,
    },
    Asked {
        name: "--determinate",
        value: Value::Nothing,
        beside: &[],
        takes_net: true,
    },
    Asked {
        name: "--kinds",
        value: Value::Nothing,
        beside: &[],
        takes_net: false,
    },
    Asked {
        name: "--journal",
        value: Value::File,
        beside: &[
            "--tapes",
            "--workers",
            "--report",
            "--quiet",
            "--brief",
            "--progress",
        ],
        takes_net: true,
    },
    Asked {
        name: "--replay",
        value: Value::File,
        beside: &["--tapes"],
        takes_net: true,
    },
    Asked {
        name: "--make",
        value: Value::Number {
            least: 1,
            most: NUMBER_LIMIT,
        },
        beside: &["--workers"],
        takes_net: false,
    },
    Asked {
        name: "--tapes",
        value: Value::File,
        beside: &[
            "--journal",
            "--workers",
            "--report",
            "--quiet",
            "--brief",
            "--progress",
            "--replay",
        ],
        takes_net: true,
    },
    Asked {
        name: "--workers",
        value: Value::Number {
            least: 0,
            most: WORKER_LIMIT,
        },
        beside: &[
            "--journal",
            "--tapes",
            "--report",
            "--quiet",
            "--brief",
            "--progress",
            "--make",
        ],
        takes_net: true,
    },
    Asked {
        name: "--report",
        value: Value::File,
        beside: &[
            "--journal",
            "--tapes",
            "--workers",
            "--quiet",
            "--brief",
            "--progress",
        ],
        takes_net: true,
    },
    Asked {
        name: "--quiet",
        value: Value::Nothing,
        beside: &[
            "--journal",
            "--tapes",
            "--workers",
            "--report",
            "--brief",
            "--progress",
        ],
        takes_net: true,
    },
    Asked {
        name: "--brief",
        value: Value::Nothing,
        beside: &[
            "--journal",
            "--tapes",
            "--workers",
            "--report",
            "--quiet",
            "--progress",
        ],
        takes_net: true,
    },
    Asked {
        name: "--progress",
        value: Value::Nothing,
        beside: &[
            "--journal",
            "--tapes",
            "--workers",
            "--report",
            "--quiet",
            "--brief",
        ],
        takes_net: true,
    },
    Asked {
        name: "--texts",
        value: Value::Nothing,
        beside: &[],
        takes_net: true,
    },
    Asked {
        name: "--help",
        value: Value::Nothing,
        beside: &[],
        takes_net: true,
    },
    Asked {
        name: "--version",
        value: Value::Nothing,
        beside: &[],
        takes_net: true,
    },
];

/// The options of a page, which is printed whatever stands beside them.
const PAGES: [&str; 2] = ["--help", "--version"];

// The words as far as they are read.
#[derive(Drop)]
struct Read<'a> {
    given: Vec<Asked>,
    net: Option<&'a str>,
    /// An option whose value comes next.
    open: Option<Asked>,
    /// Whether a word -- was read, behind which each word is a name.
    names: bool,
}

fn named(name: &str) -> Option<Asked> {
    OPTIONS.iter().find(|option| option.name == name).copied()
}

// Whether an option asks for a page.
fn is_page(option: &Asked) -> bool {
    PAGES.iter().any(|page| *page == option.name)
}

// Whether a word is neither a name nor a value.
fn is_dashed(word: &str) -> bool {
    word.starts_with('-') && word != "-"
}

/// What is wrong with the words, as far as it is seen.
pub fn put_wrong(alloc: Global, page: &mut String, words: &[String]) -> Result<(), AllocError> {
    let mut read = Read {
        given: Vec::new(alloc),
        net: None,
        open: None,
        names: false,
    };
    if words.is_empty() {
        return page.push_str("No network file is named, or a word isn't UTF-8.\n");
    }
    for word in words {
        if !read.take(alloc, page, word.as_str())? {
            return Ok(());
        }
    }
    read.end(page)
}

// The word, and what is said of it.
fn say(page: &mut String, word: &str, text: &str) -> Result<bool, AllocError> {
    put_word(page, word.as_bytes())?;
    page.push_str(text)?;
    Ok(false)
}

// Whether the word is a value of the option; what it may be is said where it is none.
fn take_value(page: &mut String, option: Asked, word: &str) -> Result<bool, AllocError> {
    match option.value {
        Value::Number { least, most } => {
            if decimal(word.as_bytes(), u64::from(least), u64::from(most)).is_some() {
                return Ok(true);
            }
            page.push_str(option.name)?;
            page.push(' ')?;
            put_word(page, word.as_bytes())?;
            write!(
                page,
                ": the number is one from {least} to {most}, in digits without zeros in front.\n"
            )?;
            Ok(false)
        }
        _ => Ok(true),
    }
}

impl<'a> Read<'a> {
    // Takes the next word, and says whether the words are fine so far.
    fn take(
        &mut self,
        alloc: Global,
        page: &mut String,
        word: &'a str,
    ) -> Result<bool, AllocError> {
        if let Some(option) = self.open {
            if is_dashed(word) {
                return missing(page, option);
            }
            self.open = None;
            return take_value(page, option, word);
        }
        if self.names || !is_dashed(word) {
            return self.name(page, word);
        }
        if word == "--" {
            self.names = true;
            return Ok(true);
        }
        let (name, value) = match word.split_once('=') {
            Some((name, value)) => (name, Some(value)),
            None => (word, None),
        };
        let name = if name == "-h" { "--help" } else { name };
        match named(name) {
            Some(option) => self.option(page, option, value),
            None => unknown(alloc, page, name),
        }
    }

    fn name(&mut self, page: &mut String, word: &'a str) -> Result<bool, AllocError> {
        let Some(first) = self.net else {
            self.net = Some(word);
            return Ok(true);
        };
        if gives_text(word.as_bytes()) {
            page.push_str(
                "A text for a word of a network of version 3 stands behind all options: ",
            )?;
            return say(page, word, ".\n");
        }
        page.push_str("Two network files are named, ")?;
        put_word(page, first.as_bytes())?;
        page.push_str(" and ")?;
        say(page, word, ".\n")
    }

    fn option(
        &mut self,
        page: &mut String,
        option: Asked,
        value: Option<&'a str>,
    ) -> Result<bool, AllocError> {
        if self.given.iter().any(|given| given.name == option.name) {
            return say(page, option.name, " is given twice.\n");
        }
        for given in &self.given {
            let pages = is_page(given) || is_page(&option);
            if !pages && !given.beside.iter().any(|name| *name == option.name) {
                page.push_str(given.name)?;
                page.push_str(" and ")?;
                return say(page, option.name, " don't go together.\n");
            }
        }
        self.given.push(option)?;
        match (option.value, value) {
            (Value::Nothing, Some(_)) => say(page, option.name, " has no value.\n"),
            (Value::Nothing, None) => Ok(true),
            (_, Some(value)) => take_value(page, option, value),
            (_, None) => {
                self.open = Some(option);
                Ok(true)
            }
        }
    }

    // What is wrong when all words are read.
    fn end(&self, page: &mut String) -> Result<(), AllocError> {
        if let Some(option) = self.open {
            missing(page, option)?;
            return Ok(());
        }
        if self.given.iter().any(is_page) {
            return Ok(());
        }
        let without = self.given.iter().find(|given| !given.takes_net);
        match (self.net, without) {
            (None, None) => page.push_str("No network file is named.\n"),
            (Some(net), Some(option)) => {
                page.push_str(option.name)?;
                page.push_str(" takes no network file, and ")?;
                say(page, net, " is named besides.\n")?;
                Ok(())
            }
            _ => Ok(()),
        }
    }
}

fn missing(page: &mut String, option: Asked) -> Result<bool, AllocError> {
    let wanted = match option.value {
        Value::File => " wants the name of a file behind it.\n",
        _ => " wants a number behind it.\n",
    };
    say(page, option.name, wanted)
}

fn unknown(alloc: Global, page: &mut String, name: &str) -> Result<bool, AllocError> {
    page.push_str("There is no option ")?;
    put_word(page, name.as_bytes())?;
    let mut names = Vec::new(alloc);
    for option in &OPTIONS {
        names.push(option.name.as_bytes())?;
    }
    match nearest(alloc, name.as_bytes(), &names)? {
        Some(near) => {
            page.push_str("; the nearest is ")?;
            put_word(page, near)?;
        }
        None => page.push_str("; a file whose name begins with - stands behind --")?,
    }
    page.push_str(".\n")?;
    Ok(false)
}
