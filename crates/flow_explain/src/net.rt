//! A network file that is explained, beside the table of kinds.
use crate::found::{
    Found, Home, Wanted, find_in, home_of, homes_of, is_port, is_same_part, kind_of, version_in,
};
use crate::kinds::{Side, row};
use crate::own::OwnKinds;
use crate::place::{Counted, canonical, fewest, statement};
use crate::said::Tag;
use crate::shown::put_line;
use flow_flat::ExpandFault;
use flow_plan::KindSpec;
use std::alloc::{AllocError, Global};

/// The bytes of a network file, and the rows of the table of kinds.
#[derive(Clone, Copy)]
pub struct Net<'a> {
    pub alloc: Global,
    pub bytes: &'a [u8],
    pub kinds: &'a [KindSpec],
    /// Those of them that are the caller's own.
    pub own: OwnKinds<'a>,
}

/// The statement at fault, and the line that has the port which is at fault.
#[derive(Clone, Copy)]
pub struct AtFault<'a> {
    pub statement: Option<Found<'a>>,
    pub port: Option<Found<'a>>,
}

/// Shows a line.
pub fn put_found(page: &mut String, found: &Found<'_>) -> Result<(), AllocError> {
    put_line(page, found.number, found.line, 0)
}

/// Shows a line, where there is one.
pub fn put_if_found(page: &mut String, found: Option<Found<'_>>) -> Result<(), AllocError> {
    match found {
        Some(found) => put_found(page, &found),
        None => Ok(()),
    }
}

// Whether a line of this process's part mentions this port of it on this side.
fn reaches(statement: Option<Found<'_>>, home: &Home<'_>, port: &[u8], side: Side) -> bool {
    match statement {
        Some(found) => {
            is_same_part(found.part, home.part)
                && is_port(found.said.mention(side), home.process, port)
        }
        None => false,
    }
}

impl<'a> Net<'a> {
    /// The version of the file.
    pub fn version(&self) -> Result<u32, AllocError> {
        version_in(self.alloc, self.bytes)
    }

    /// The part and the name there of the process with this flat name.
    pub fn home(&self, flat: &'a [u8]) -> Result<Home<'a>, AllocError> {
        home_of(self.alloc, self.bytes, flat)
    }

    /// The name of the kind that a process is given.
    pub fn kind(&self, home: &Home<'a>) -> Result<Option<&'a [u8]>, AllocError> {
        kind_of(self.alloc, self.bytes, home.part, home.process)
    }

    /// The row of the kind that a process is given.
    pub fn row(&self, home: &Home<'a>) -> Result<Option<&'a KindSpec>, AllocError> {
        match self.kind(home)? {
            Some(kind) => Ok(row(self.kinds, kind)),
            None => Ok(None),
        }
    }

    /// The first line of a process's part that is wanted.
    pub fn find(
        &self,
        home: &Home<'a>,
        wanted: &Wanted<'_>,
    ) -> Result<Option<Found<'a>>, AllocError> {
        find_in(self.alloc, self.bytes, home.part, wanted)
    }

    /// The line that gives its text to this port of the process with this flat name. Where the port is an outer one's, that
    /// line stands outside of the subnet.
    pub fn giver(&self, flat: &'a [u8], port: &'a [u8]) -> Result<Option<Found<'a>>, AllocError> {
        let homes = homes_of(self.alloc, self.bytes, flat)?;
        let mut port = port;
        let mut left = homes.len();
        for _ in 0..homes.len() {
            left = left.saturating_sub(1);
            let Some(home) = homes.get(left) else {
                return Ok(None);
            };
            let wanted = Wanted::Port(Side::Input, home.process, port);
            let Some(found) = self.find(home, &wanted)? else {
                return Ok(None);
            };
            if found.said.tag != Tag::OuterInput {
                return Ok(Some(found));
            }
            port = found.said.name;
        }
        Ok(None)
    }

    /// The statement at fault, where the fault is one of a statement.
    pub fn statement(&self, fault: &ExpandFault) -> Result<Option<Found<'a>>, AllocError> {
        let Some(spelling) = canonical(self.alloc, self.bytes)? else {
            return Ok(None);
        };
        let number = fewest(self.alloc, &spelling, self.own, Counted::Statements, fault)?;
        statement(self.alloc, self.bytes, number)
    }

    /// Shows the statement at fault, and the line that has the port on this side where it is another one: inside a subnet
    /// that of the outer port through which the statement reaches it.
    pub fn put_statement(
        &self,
        page: &mut String,
        fault: &ExpandFault,
        home: &Home<'a>,
        port: &[u8],
        side: Side,
    ) -> Result<AtFault<'a>, AllocError> {
        let statement = self.statement(fault)?;
        put_if_found(page, statement)?;
        if reaches(statement, home, port, side) {
            return Ok(AtFault {
                statement,
                port: statement,
            });
        }
        let inner = self.find(home, &Wanted::Port(side, home.process, port))?;
        put_if_found(page, inner)?;
        Ok(AtFault {
            statement,
            port: inner,
        })
    }

    /// Shows the line that gives a process its kind.
    pub fn put_process(&self, page: &mut String, home: &Home<'a>) -> Result<(), AllocError> {
        let found = self.find(home, &Wanted::Kind(home.process))?;
        put_if_found(page, found)
    }
}
