//! A file as far as it is read, line by line.
ghost use Rattle.std.specs.Prelude.{◌≡◌, [], ⊤, IfOk, length, Option, if◌then◌else◌};
ghost use Rattle.flow_parse.specs.Files.{at_end, may_stand, text_fits, Parts, statements_of, IsAdded};
ghost use Rattle.flow_parse.specs.Reader.{Stands, Reads, Gives, IsPart, HasRead, AddsLine, Finishes, Passes, Takes, RefusesFor, StopsAs, Heeds, version_in, AddsNow};

use crate::fault::{NetFault, ParseStop, Reason};
use crate::form::Form;
use crate::line::read_line;
use crate::mentions::add_mentions;
use crate::name::{named, numbered};
use crate::statements::add_statement;
use crate::stop::LineStop;
use crate::subnets::Subnets;
use crate::table::{MentionedProcess, Processes, kindless};
use crate::value::{FIRST_VERSION, NetPart, NetText, Statement};
use flow_items::{Items, Text};
use flow_limits::{STATEMENT_LIMIT, TEXT_LIMIT};
use std::alloc::{AllocError, Global};

/// A part as far as it is read.
#[derive(Drop)]
pub struct Part {
    pub known: Processes,
    pub statements: Vec<Statement>,
}

/// A subnet that has no end yet.
#[derive(Drop)]
pub struct OpenPart {
    pub line: u64,
    pub name: Text,
    pub part: Part,
}

/// A file as far as it is read.
#[derive(Drop)]
pub struct Reader {
    pub headed: bool,
    pub version: u32,
    pub main: Part,
    pub subnets: Subnets,
    pub open_part: Option<OpenPart>,
    pub statements: usize,
}

fn stop(line: u64, reason: Reason) -> Result<(), ParseStop>
    ensures { result ≡ Err (ParseStop.Fault (record { line = line; reason = reason })) }
{
    Err(ParseStop::Fault(NetFault { line, reason }))
}

fn is_statement(form: &Form) -> bool
    ensures { length (statements_of form.now) ≡ (if result then 1 else 0) }
{
    match form {
        Form::Header { version: _ }
        | Form::Process { name: _, kind: _ }
        | Form::Subnet { name: _ }
        | Form::End => false,
        _ => true,
    }
}

fn has_fitting_text(form: &Form) -> bool
    ensures { result ≡ text_fits form.now }
{
    match form {
        Form::Initial {
            text,
            into: _,
            to: _,
        } => text.len() <= TEXT_LIMIT,
        _ => true,
    }
}

fn version_of_header(form: &Form) -> Option<u32>
    ensures { result ≡ version_in form.now }
{
    match form {
        Form::Header { version } => Some(*version),
        _ => None,
    }
}

impl Part {
    fn new(alloc: Global) -> Part
        ensures { IsPart result [] }
    {
        Part {
            known: Processes::new(alloc),
            statements: Vec::new(alloc),
        }
    }

    /// Adds what a line says. False where a process gets a second kind.
    fn add(&mut self, alloc: Global, line: u64, form: Form) -> Result<bool, AllocError>
        ensures { IfOk result (λ fine. AddsLine self.old line form self.new fine) }
    {
        if !add_mentions(alloc, &mut self.known, line, &form)? {
            return Ok(false);
        }
        add_statement(alloc, &mut self.statements, form)?;
        Ok(true)
    }

    /// The value of the part, or the line that first mentions a process without a kind.
    fn finish(self, alloc: Global) -> Result<Result<NetPart, u64>, AllocError>
        ensures { IfOk result (Finishes self) }
    {
        let Part { known, statements } = self;
        if let Some(line) = kindless(known.as_slice()) {
            return Ok(Err(line));
        }
        let mut processes = Items::new(alloc);
        'processes: for process in known.into_rows() {
            let MentionedProcess {
                line: _,
                name,
                kind,
            } = process;
            let kind = match kind {
                Some(kind) => kind,
                None => Text::new(alloc),
            };
            processes.push((name, kind))?;
        }
        Ok(Ok(NetPart {
            processes,
            statements: Items::of(statements),
        }))
    }
}

impl Reader {
    pub fn new(alloc: Global) -> Reader
        ensures { Stands result None }
    {
        Reader {
            headed: false,
            version: FIRST_VERSION,
            main: Part::new(alloc),
            subnets: Subnets::new(alloc),
            open_part: None,
            statements: 0,
        }
    }

    fn allows(&self, form: &Form) -> bool
        ensures { (parts : Parts) → HasRead self.now parts → result ≡ may_stand parts form.now }
    {
        match form {
            Form::Header { version: _ } => false,
            Form::Subnet { name: _ } => self.open_part.is_none(),
            Form::End
            | Form::InPort {
                outer: _,
                into: _,
                to: _,
            }
            | Form::OutPort {
                from: _,
                out: _,
                outer: _,
            } => self.open_part.is_some(),
            _ => true,
        }
    }

    fn open(&mut self, alloc: Global, line: u64, name: Text) -> Result<(), ParseStop>
        ensures { Takes (λ parts. Passes parts (Form.Subnet name)) self.old line (Form.Subnet name) self.new result }
    {
        if self.subnets.has(name.as_slice()) {
            return stop(line, Reason::Subnet);
        }
        self.open_part = Some(OpenPart {
            line,
            name,
            part: Part::new(alloc),
        });
        Ok(())
    }

    fn close(&mut self, alloc: Global, line: u64) -> Result<(), ParseStop>
        ensures { Takes (λ parts. Passes parts Form.End) self.old line Form.End self.new result }
    {
        let Some(open) = self.open_part.take() else {
            return Ok(());
        };
        let OpenPart {
            line: _,
            name,
            part,
        } = open;
        match part.finish(alloc)? {
            Ok(part) => {
                self.subnets.push(alloc, name, part)?;
                Ok(())
            }
            Err(first) => stop(first, Reason::Kind),
        }
    }

    fn add_now(&mut self, alloc: Global, line: u64, form: Form) -> Result<bool, AllocError>
        ensures { IfOk result (λ fine. AddsNow self.old line form self.new fine) }
    {
        match &mut self.open_part {
            Some(open) => open.part.add(alloc, line, form),
            None => self.main.add(alloc, line, form),
        }
    }

    fn add(&mut self, alloc: Global, line: u64, form: Form) -> Result<(), ParseStop>
        ensures { Takes (λ parts. IsAdded form × Passes parts form) self.old line form self.new result }
    {
        let fits = has_fitting_text(&form);
        let counts = is_statement(&form);
        let fine = self.add_now(alloc, line, form)?;
        if !fine {
            return stop(line, Reason::Kind);
        }
        if !fits {
            return stop(line, Reason::Limit);
        }
        if counts {
            if self.statements >= STATEMENT_LIMIT {
                return stop(line, Reason::Limit);
            }
            self.statements += 1;
        }
        Ok(())
    }

    /// Why what a line says may not stand here, or isn't said well.
    fn refusal(&self, form: &Form) -> Option<Reason>
        ensures { (parts : Parts) → HasRead self.now parts → RefusesFor result parts form.now }
    {
        if !self.allows(form) {
            return Some(Reason::Form);
        }
        if !named(form) {
            return Some(Reason::Name);
        }
        if !numbered(self.version, form) {
            return Some(Reason::Number);
        }
        None
    }

    /// Takes what may stand here and is said well.
    fn put(&mut self, alloc: Global, line: u64, form: Form) -> Result<(), ParseStop>
        ensures { Takes (λ parts. Passes parts form) self.old line form self.new result }
    {
        match form {
            Form::Header { version: _ } => Ok(()),
            Form::Subnet { name } => self.open(alloc, line, name),
            Form::End => self.close(alloc, line),
            form => self.add(alloc, line, form),
        }
    }

    fn take(&mut self, alloc: Global, line: u64, form: Form) -> Result<(), ParseStop>
        ensures { Takes (λ _. ⊤) self.old line form self.new result }
    {
        if let Some(reason) = self.refusal(&form) {
            return stop(line, reason);
        }
        self.put(alloc, line, form)
    }

    /// What comes of a line that says nothing.
    fn stopped(&self, number: u64, stop: LineStop) -> ParseStop
        ensures { StopsAs self.now.headed number stop result }
    {
        let reason = match stop {
            LineStop::NoMemory => return ParseStop::NoMemory,
            LineStop::Byte => Reason::Byte,
            LineStop::Quote => Reason::Quote,
            LineStop::Form => Reason::Form,
        };
        if self.headed {
            return ParseStop::Fault(NetFault {
                line: number,
                reason,
            });
        }
        ParseStop::Fault(NetFault {
            line: number,
            reason: Reason::Header,
        })
    }

    /// Takes what a line says.
    fn heed(&mut self, alloc: Global, number: u64, form: Form) -> Result<(), ParseStop>
        ensures { Heeds self.old number form self.new result }
    {
        if self.headed {
            return self.take(alloc, number, form);
        }
        let Some(version) = version_of_header(&form) else {
            return stop(number, Reason::Header);
        };
        self.version = version;
        self.headed = true;
        Ok(())
    }

    /// Reads the line with this number.
    pub fn line(&mut self, alloc: Global, number: u64, line: &[u8]) -> Result<(), ParseStop>
        ensures { Reads self.old number line.now self.new result }
    {
        match read_line(alloc, self.version, line) {
            Ok(None) => Ok(()),
            Ok(Some(form)) => self.heed(alloc, number, form),
            Err(stop) => Err(self.stopped(number, stop)),
        }
    }

    /// The value of the file, which has `number` - 1 lines.
    pub fn finish(self, alloc: Global, number: u64) -> Result<NetText, ParseStop>
        ensures { (before : Option Parts) → Stands self before → Gives result (λ outcome. at_end number before ≡ outcome) }
    {
        let Reader {
            headed,
            version,
            main,
            subnets,
            open_part,
            statements: _,
        } = self;
        if !headed {
            return Err(ParseStop::Fault(NetFault {
                line: number,
                reason: Reason::Header,
            }));
        }
        if let Some(open) = open_part {
            return Err(ParseStop::Fault(NetFault {
                line: open.line,
                reason: Reason::Subnet,
            }));
        }
        match main.finish(alloc)? {
            Ok(main) => Ok(NetText {
                version,
                subnets: Items::of(subnets.into_rows()),
                main,
            }),
            Err(line) => Err(ParseStop::Fault(NetFault {
                line,
                reason: Reason::Kind,
            })),
        }
    }
}
