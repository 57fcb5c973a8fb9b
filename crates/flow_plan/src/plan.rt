//! A plan: what a network is before it runs.

use crate::kind::PortSpec;
use crate::names;
use flow_items::{Items, Text};
use std::alloc::{AllocError, Global};
use std::marker::Model;

/// An output of a process, by numbers.
#[derive(Clone, Copy, Debug, PartialEq, Eq)]
pub struct Sender {
    pub process: u32,
    pub output: u32,
}

/// A process: its name and kind, its options by the places of their ports in the kind's table, its
/// initial texts by input number, and its numbers of inputs and outputs.
///
/// Inputs are numbered in the order of the kind's stream ports with arrays written out, and outputs in
/// the order of its output ports. An output that isn't connected keeps its number. Each process has an
/// automatic input and an automatic output besides: their numbers are `inputs` and `outputs`.
#[derive(Debug, Drop)]
pub struct Process {
    pub name: Text,
    pub kind: Text,
    pub options: Items<(u32, Text)>,
    pub initials: Items<(u32, Text)>,
    pub inputs: u32,
    pub outputs: u32,
}

/// A connection: the input that receives from it, its capacity, and its senders in the order in which
/// they were connected.
#[derive(Debug, Drop)]
pub struct Connection {
    pub receiver: u32,
    pub input: u32,
    pub capacity: u32,
    pub senders: Items<Sender>,
}

/// A port of a process, with the number of its elements.
#[derive(Drop)]
pub struct PortRow {
    pub spec: PortSpec,
    pub elements: u32,
}

/// The ports of a process, in the order of its kind's table.
#[derive(Drop)]
pub struct PortTable {
    pub inputs: Items<PortRow>,
    pub outputs: Items<PortRow>,
}

/// A network before it runs. It is valid by its type: whoever holds one holds a network whose names
/// differ, whose inputs each have one connection or one text, and that is within all its limits.
#[derive(Drop)]
pub struct Plan {
    processes: Vec<Process>,
    connections: Vec<Connection>,
    tables: Vec<PortTable>,
}

impl Model for Plan {
    ghost use Rattle.flow_plan.specs.Network.{Network};

    ghost Value = { Network };

    ghost view = { λ p. record { processes = p.processes.items; connections = p.connections.items; tables = p.tables.items } };

    ghost use Rattle.flow_plan.specs.Valid.{IsValid};

    ghost invariant = { λ p. IsValid (record { processes = p.processes.items; connections = p.connections.items; tables = p.tables.items }) };
}

impl Plan {
    ghost use Rattle.std.specs.Prelude.{◌≡◌, Some, IfOk};
    ghost use Rattle.std.specs.Option.{option_map};
    ghost use Rattle.flow_plan.specs.Network.{IsInputEnd, IsOutputEnd, automatic_input, automatic_output, input_port, output_port, spelled};
    ghost use Rattle.flow_plan.specs.Valid.{IsValid};

    /// The plan of these processes, connections and tables, which are a valid one. Takes no memory.
    pub fn new(
        processes: Vec<Process>,
        connections: Vec<Connection>,
        tables: Vec<PortTable>,
    ) -> Self
        requires { IsValid (record { processes = processes.items; connections = connections.items; tables = tables.items }) }
        ensures is { result ≡ record { processes = processes.items; connections = connections.items; tables = tables.items } }
        ensures valid { IsValid result }
    {
        Plan {
            processes,
            connections,
            tables,
        }
    }

    /// The processes, in the order of their numbers.
    pub fn processes(&self) -> &[Process]
        ensures processes { result.now ≡ self.now.processes }
        ensures valid { IsValid self.now }
    {
        self.processes.as_slice()
    }

    /// The connections, in the order in which they were first named.
    pub fn connections(&self) -> &[Connection]
        ensures { result.now ≡ self.now.connections }
    {
        self.connections.as_slice()
    }

    /// Spells an input as a report does: the port's name, with the element of an array in brackets. The
    /// automatic input is `*IN`.
    pub fn input_name(&self, alloc: Global, process: u32, input: u32) -> Result<Vec<u8>, AllocError>
        requires { IsInputEnd self.now process input }
        ensures { IfOk result (λ name. option_map spelled (input_port self.now process input) ≡ Some name.items) }
    {
        names::name_at(
            alloc,
            self.tables[process as usize].inputs.as_slice(),
            b"*IN",
            input,
        )
    }

    /// Spells an output as a report does: the port's name, with the element of an array in brackets. The
    /// automatic output is `*OUT`.
    pub fn output_name(
        &self,
        alloc: Global,
        process: u32,
        output: u32,
    ) -> Result<Vec<u8>, AllocError>
        requires { IsOutputEnd self.now process output }
        ensures { IfOk result (λ name. option_map spelled (output_port self.now process output) ≡ Some name.items) }
    {
        names::name_at(
            alloc,
            self.tables[process as usize].outputs.as_slice(),
            b"*OUT",
            output,
        )
    }
}
