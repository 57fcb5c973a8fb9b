//! The search that never gives up: by the states of a pattern's program, one after another.

ghost use Rattle.std.specs.Prelude.{◌≡◌, ◌-◌, ◌≤◌, Some, None, length, is_some, option_map, IfOk, IfSome};
ghost use Rattle.regex_vm.specs.Found.{first_match, group_cells, span};
ghost use Rattle.flow_pattern.specs.Steps.{HasRoomFor};

use regex_dfa::Dfa;
use regex_vm::PikeVm;
use std::alloc::{AllocError, Global};
use std::marker::Model;

/// What goes through a text by steps, of a time that is bounded by the text and the program alone. It is made where an
/// automaton first gives up, and kept from then on.
pub(crate) struct Steps {
    machine: Option<Box<PikeVm>>,
}

impl Model for Steps {
    ghost use Rattle.std.specs.Prelude.{Option, option_map};
    ghost use Rattle.regex_vm.specs.Pike.{Room};

    ghost Value = { Option Room };

    ghost view = { λ s. option_map (λ machine. machine.value) s.machine };
}

// Written out, so that a proof above sees one call here and not what all the fields let go.
impl Drop for Steps {
    fn drop(self) {
        let Steps { machine: _machine } = self;
    }
}

// What searches for this automaton's program.
fn machine_for(
    alloc: Global,
    kept: Option<Box<PikeVm>>,
    dfa: &Dfa,
) -> Result<Box<PikeVm>, AllocError>
    requires kept { HasRoomFor dfa.now (option_map (λ machine. machine.value) kept) }
    ensures { IfOk result (λ machine. HasRoomFor dfa.now (Some machine.value)) }
{
    match kept {
        Some(machine) => Ok(machine),
        None => {
            let machine = PikeVm::new(alloc, &dfa.nfa)?;
            Ok(Box::new(alloc, machine)?)
        }
    }
}

impl Steps {
    /// Nothing is made yet. Takes no memory.
    pub(crate) fn new() -> Steps
        ensures { result ≡ None }
    {
        Steps { machine: None }
    }

    /// Whether a match starts at `start` or after it.
    pub(crate) fn is_match(
        &mut self,
        alloc: Global,
        dfa: &Dfa,
        text: &[u8],
        start: usize,
    ) -> Result<bool, AllocError>
        requires within { start ≤ length text.now }
        requires room { HasRoomFor dfa.now self.old }
        ensures found { IfOk result (λ found. found ≡ is_some (first_match dfa.now.nfa text.now (length text.now) start (length text.now))) }
        ensures room { HasRoomFor dfa.now self.new }
    {
        let mut machine = machine_for(alloc, self.machine.take(), dfa)?;
        let found = machine.is_match(&dfa.nfa, text, start, text.len(), text.len());
        self.machine = Some(machine);
        Ok(found)
    }

    /// The span of the leftmost match that starts at `start` or after it.
    pub(crate) fn find(
        &mut self,
        alloc: Global,
        dfa: &Dfa,
        text: &[u8],
        start: usize,
    ) -> Result<Option<(usize, usize)>, AllocError>
        requires within { start ≤ length text.now }
        requires room { HasRoomFor dfa.now self.old }
        ensures found { IfOk result (λ found. found ≡ option_map span (first_match dfa.now.nfa text.now (length text.now) start (length text.now))) }
        ensures room { HasRoomFor dfa.now self.new }
    {
        let mut machine = machine_for(alloc, self.machine.take(), dfa)?;
        let found = machine.find(&dfa.nfa, text, start, text.len(), text.len(), &mut []);
        self.machine = Some(machine);
        Ok(found)
    }

    /// The cells of the groups of the leftmost match that starts at `start` or after it.
    pub(crate) fn groups(
        &mut self,
        alloc: Global,
        dfa: &Dfa,
        text: &[u8],
        start: usize,
    ) -> Result<Vec<usize>, AllocError>
        requires within { start ≤ length text.now }
        requires room { HasRoomFor dfa.now self.old }
        ensures cells { IfOk result (λ cells. IfSome (first_match dfa.now.nfa text.now (length text.now) start (length text.now)) (λ m. cells.items ≡ group_cells m (dfa.now.nfa.slot_count - 2))) }
        ensures room { HasRoomFor dfa.now self.new }
    {
        let mut cells = vec![in alloc; 0usize; dfa.nfa.slot_count as usize - 2]?;
        let mut machine = machine_for(alloc, self.machine.take(), dfa)?;
        let slots = cells.as_mut_slice();
        let _found = machine.find(&dfa.nfa, text, start, text.len(), text.len(), slots);
        self.machine = Some(machine);
        Ok(cells)
    }
}
