//! Where the words and slots of a floor lie whose connections have two ends.
ghost use Rattle.std.specs.Prelude.{◌≡◌, ℕ, ◌+◌, ◌*◌, ◌<◌, ◌≤◌, ◌^◌, All, length, slice_index, IfOk};
ghost use Rattle.flow_ring.specs.Places.{process_at, Word, Slot, word_at, word_count, cells_before, place_slot, puts_slot, takes_slot, slot_at, slot_count, OneLineEach, WordsWithin, OnePlaceEach, SlotsWithin, CellsApart};
ghost use Rattle.flow_ring.specs.Places.{level, gate, clock, live, body, puts, takes};

use std::alloc::{AllocError, Global};

/// How far apart the words lie, in words: as far as a line of the cache is long. So two workers that change different words never wait for one line.
pub const SPACING: usize = 8;

/// Where the words and slots of a floor lie that has so many processes, and connections with these capacities.
#[derive(Drop)]
pub struct Layout {
    pub processes: usize,
    pub connections: usize,
    pub capacities: Vec<u32>,
    /// How many cells the connections before each one have, and at last how many all have.
    firsts: Vec<usize>,
    pub ghost counted: { length capacities.items ≡ connections },
    pub ghost some: { All (λ c. 0 < c) capacities.items },
    pub ghost before: { (length firsts.items ≡ connections + 1) × ((c : ℕ) → c ≤ connections → slice_index firsts.items c ≡ cells_before capacities.items c) },
    pub ghost small: { processes + 2 * connections + cells_before capacities.items connections < 2 ^ 32 },
}

/// How many cells the connections before each one have, and at last how many all have.
fn first_cells(alloc: Global, capacities: &[u32]) -> Result<Vec<usize>, AllocError>
    requires { length capacities.now + cells_before capacities.now (length capacities.now) < 2 ^ 32 }
    ensures { IfOk result (λ firsts. (length firsts.items ≡ length capacities.now + 1) × ((c : ℕ) → c ≤ length capacities.now → slice_index firsts.items c ≡ cells_before capacities.now c)) }
{
    let mut firsts = Vec::with_capacity(alloc, capacities.len() + 1)?;
    let mut before = 0usize;
    for c in 0..capacities.len() {
        firsts.push_reserved(before);
        before += capacities[c] as usize;
    }
    firsts.push_reserved(before);
    Ok(firsts)
}

impl Layout {
    pub fn of(alloc: Global, processes: usize, capacities: Vec<u32>) -> Result<Layout, AllocError>
        requires some { All (λ c. 0 < c) capacities.items }
        requires small { processes + 2 * length capacities.items + cells_before capacities.items (length capacities.items) < 2 ^ 32 }
        ensures { IfOk result (λ l. (l.processes ≡ processes) × (l.connections ≡ length capacities.items) × (l.capacities.items ≡ capacities.items)) }
    {
        let firsts = first_cells(alloc, capacities.as_slice())?;
        Ok(Layout {
            processes,
            connections: capacities.len(),
            capacities,
            firsts,
        })
    }

    /// How many words there are, those between the ones that are used among them.
    pub fn words(&self) -> usize
        ensures { result ≡ word_count self.now.processes self.now.connections }
    {
        (self.processes + 2 * self.connections + 2) * SPACING
    }

    #[inline(always)]
    pub fn process_word(&self, process: usize) -> usize
        requires { process < self.now.processes }
        ensures { result ≡ process_at process }
    {
        process * SPACING
    }

    /// The word with the level and the open senders of the connection.
    #[inline(always)]
    pub fn level_word(&self, connection: usize) -> usize
        requires { connection < self.now.connections }
        ensures { result ≡ word_at self.now.processes self.now.connections (level connection) }
    {
        (self.processes + connection) * SPACING
    }

    /// The word that is 1 while a sender is at work at the connection.
    pub fn gate_word(&self, connection: usize) -> usize
        requires { connection < self.now.connections }
        ensures { result ≡ word_at self.now.processes self.now.connections (gate connection) }
    {
        (self.processes + self.connections + connection) * SPACING
    }

    /// The word that counts the turns.
    pub fn clock(&self) -> usize
        ensures { result ≡ word_at self.now.processes self.now.connections clock }
    {
        (self.processes + 2 * self.connections) * SPACING
    }

    /// The word that counts the processes that are ready or held.
    pub fn live(&self) -> usize
        ensures { result ≡ word_at self.now.processes self.now.connections live }
    {
        (self.processes + 2 * self.connections + 1) * SPACING
    }

    /// How many slots there are.
    pub fn slots(&self) -> usize
        ensures { result ≡ slot_count self.now.processes self.now.capacities.items }
    {
        self.processes + 2 * self.connections + self.cells()
    }

    /// How many cells all connections have.
    pub fn cells(&self) -> usize
        ensures { result ≡ cells_before self.now.capacities.items self.now.connections }
    {
        self.firsts[self.connections]
    }

    /// The slot of the process's body.
    pub fn body_slot(&self, process: usize) -> usize
        requires { process < self.now.processes }
        ensures { result ≡ slot_at self.now.processes self.now.capacities.items (body process) }
    {
        process
    }

    /// The slots of the number of puts and of the number of takes.
    #[inline(always)]
    pub fn end_slots(&self, connection: usize) -> (usize, usize)
        requires { connection < self.now.connections }
        ensures puts { result.0 ≡ puts_slot self.now.processes connection }
        ensures takes { result.1 ≡ takes_slot self.now.processes (length self.now.capacities.items) connection }
    {
        let puts = self.processes + connection;
        (puts, puts + self.connections)
    }

    /// The cell of this place: places go round the cells of their connection.
    #[inline(always)]
    pub fn cell(&self, connection: usize, place: u64) -> usize
        requires { connection < self.now.connections }
        ensures { result ≡ place_slot self.now.processes self.now.capacities.items connection place }
    {
        let capacity = self.capacities[connection] as u64;
        let within = place % capacity;
        self.processes + 2 * self.connections + self.firsts[connection] + within as usize
    }

    /// What holds of all these places: different words lie on different lines, different things have different slots, two places of a connection that differ
    /// by less than its capacity have different cells, and all are within
    /// the table. It does nothing, and is there for its contract alone: no code calls it.
    pub fn lie_apart(&self)
        ensures lines { OneLineEach self.now.processes self.now.connections }
        ensures words { WordsWithin self.now.processes self.now.connections }
        ensures places { OnePlaceEach self.now.processes self.now.capacities.items }
        ensures slots { SlotsWithin self.now.processes self.now.capacities.items }
        ensures cells { CellsApart self.now.processes self.now.capacities.items }
    {}
}
