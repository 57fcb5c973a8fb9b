//! What a drawing shows.
ghost use Rattle.std.specs.Prelude.{◌≡◌, IfOk};
ghost use Rattle.flow_drawing.specs.Remarks.{remark_at};

use flow_items::{Items, Text};
use std::alloc::{AllocError, Global};

/// How something stands out.
#[derive(Clone, Copy, Debug, PartialEq, Eq)]
pub enum Mark {
    Plain,
    /// A process that can't go on.
    Blocked,
    /// What belongs to the cycle of a deadlock.
    Cycle,
}

/// What a drawing says besides of a process or a connection: a note, which may be empty, and a mark.
#[derive(Debug, Drop)]
pub struct Remark {
    pub note: Text,
    pub mark: Mark,
}

impl Remark {
    /// A copy of this remark.
    pub fn copy(&self, alloc: Global) -> Result<Self, AllocError>
        ensures { IfOk result (λ remark. remark ≡ self.now) }
    {
        Ok(Remark {
            note: self.note.copy(alloc)?,
            mark: self.mark,
        })
    }
}

/// What a drawing says besides, by the numbers of processes and connections. Where there is nothing at a number, nothing is said.
#[derive(Debug, Drop)]
pub struct Remarks {
    pub processes: Items<Remark>,
    pub connections: Items<Remark>,
}

impl Remarks {
    ghost use Rattle.flow_drawing.specs.Remarks.{no_remarks};

    /// Nothing besides. Takes no memory.
    pub fn none(alloc: Global) -> Self
        ensures { result ≡ no_remarks }
    {
        Remarks {
            processes: Items::new(alloc),
            connections: Items::new(alloc),
        }
    }
}

/// An option that stands in the box of its process: the name of its port, and its text.
#[derive(Debug, Drop)]
pub struct Setting {
    pub port: Text,
    pub text: Text,
}

/// A process, by its number.
#[derive(Debug, Drop)]
pub struct Node {
    pub number: usize,
    pub name: Text,
    pub kind: Text,
    pub options: Items<Setting>,
    pub remark: Remark,
}

/// The rows of processes and boxes. A box stands for a subnet process, and has all between its beginning and its end.
#[derive(Debug, Drop)]
pub enum Row {
    /// A box begins. It is told apart from others by the process that comes next and by how many boxes it stands in.
    Opens {
        process: usize,
        depth: usize,
        name: Text,
    },
    /// The innermost box ends.
    Closes,
    /// A subnet process as one box, with nothing of what is inside. It has the number of the first process there.
    Folds {
        process: usize,
        name: Text,
        mark: Mark,
    },
    Shows(Node),
}

/// A text beside a process: the file that a writer's option names, behind it; or an initial text, before its port. Its place is that among the options or among the
/// initial texts of the process.
#[derive(Debug, Drop)]
pub struct Given {
    pub process: usize,
    pub option: bool,
    pub place: usize,
    pub port: Text,
    pub text: Text,
}

/// A sender of a connection: from its output to the input of the receiver. The capacity is told where it isn't the default.
#[derive(Debug, Drop)]
pub struct Edge {
    pub from: u32,
    pub output: Text,
    pub to: u32,
    pub input: Text,
    pub capacity: Option<u32>,
    /// One of its two ports is an automatic one.
    pub automatic: bool,
    pub remark: Remark,
}

/// A drawing: processes in their boxes, texts at their ports, and senders.
#[derive(Debug, Drop)]
pub struct Drawing {
    pub rows: Items<Row>,
    pub givens: Items<Given>,
    pub edges: Items<Edge>,
}

/// The remark at this number.
pub fn remark_at(alloc: Global, remarks: &[Remark], number: usize) -> Result<Remark, AllocError>
    ensures { IfOk result (λ remark. remark ≡ remark_at remarks.now number) }
{
    match remarks.get(number) {
        Some(remark) => remark.copy(alloc),
        None => Ok(Remark {
            note: Text::new(alloc),
            mark: Mark::Plain,
        }),
    }
}
