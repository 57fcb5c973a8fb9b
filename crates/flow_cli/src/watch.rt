//! Who watches the turns of a run.
use flow_component::{Gate, NoGate};

/// A gate that is told when the turns of a run are over. The program does so once nobody passes it any more, and before anything of the run is written or printed; no clause
/// says when.
pub trait Watch: Gate {
    /// The turns are over. It has no effect on what comes of them.
    fn end_turns(&self);
}

impl Watch for NoGate {
    fn end_turns(&self) {}
}

/// A gate as it is, which needn't know when the turns are over.
#[derive(Drop)]
pub struct Unwatched<'a, G: Gate> {
    pub gate: &'a G,
}

impl<G: Gate> Gate for Unwatched<'_, G> {
    #[inline(always)]
    fn pass(&self, process: u32, turns: u64) {
        self.gate.pass(process, turns);
    }
}

impl<G: Gate> Watch for Unwatched<'_, G> {
    fn end_turns(&self) {}
}
