//! Outer ports that a subnet gives twice.
ghost use Rattle.std.specs.Prelude.{◌≡◌, [], ◌||◌, IfOk, OnOk};
ghost use Rattle.std.specs.Option.{option_map};
ghost use Rattle.flow_parse.specs.declared.value.Statement.{Statement};
ghost use Rattle.flow_parse.specs.Places.{place_in};
ghost use Rattle.flow_flat.specs.Texts.{is_given_by, outer_name, given_again};
ghost use Rattle.flow_expand.specs.Given.{is_among};

use flow_items::Text;
use flow_parse::{Names, NetPart, Statement};
use std::alloc::{AllocError, Global};

/// The outer names that lines of a subnet have given so far, of inputs and of outputs.
#[derive(Drop)]
pub struct Given {
    pub inputs: Names,
    pub outputs: Names,
}

impl Given {
    /// Whether a line before gives the outer name of this one, on its side.
    fn has(&self, statement: &Statement) -> bool
        ensures { result ≡ is_among (place_in self.now.inputs.places) (place_in self.now.outputs.places) statement.now }
    {
        match statement {
            Statement::InPort {
                outer,
                to: _,
                into: _,
            } => self.inputs.place(outer.as_slice()).is_some(),
            Statement::OutPort {
                from: _,
                out: _,
                outer,
            } => self.outputs.place(outer.as_slice()).is_some(),
            _ => false,
        }
    }

    /// Adds the outer name of a line.
    fn put(&mut self, alloc: Global, statement: &Statement) -> Result<(), AllocError>
        ensures { OnOk result ((other : Statement) → is_among (place_in self.new.inputs.places) (place_in self.new.outputs.places) other ≡ (is_among (place_in self.old.inputs.places) (place_in self.old.outputs.places) other || is_given_by other statement.now)) }
    {
        match statement {
            Statement::InPort {
                outer,
                to: _,
                into: _,
            } => self.inputs.put(alloc, outer.as_slice(), 0),
            Statement::OutPort {
                from: _,
                out: _,
                outer,
            } => self.outputs.put(alloc, outer.as_slice(), 0),
            _ => Ok(()),
        }
    }
}

/// The first line of a subnet that gives an outer port a second time, on its side.
pub fn second_given(alloc: Global, part: &NetPart) -> Result<Option<&Statement>, AllocError>
    ensures { IfOk result (λ found. given_again [] part.now.statements ≡ option_map (λ s. outer_name s.now) found) }
{
    let mut given = Given {
        inputs: Names::new(alloc),
        outputs: Names::new(alloc),
    };
    let statements = part.statements.as_slice();
    'statements: for statement in statements {
        if given.has(statement) {
            return Ok(Some(statement));
        }
        given.put(alloc, statement)?;
    }
    Ok(None)
}

/// The outer name that a line gives, or none.
pub fn given_name(alloc: Global, statement: &Statement) -> Result<Text, AllocError>
    ensures { IfOk result (λ name. name ≡ outer_name statement.now) }
{
    match statement {
        Statement::InPort {
            outer,
            to: _,
            into: _,
        } => outer.copy(alloc),
        Statement::OutPort {
            from: _,
            out: _,
            outer,
        } => outer.copy(alloc),
        _ => Ok(Text::new(alloc)),
    }
}
