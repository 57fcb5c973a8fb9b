//! The ends of connections at which a burst is.
ghost use Rattle.std.specs.Prelude.{◌≡◌, true};
ghost use Rattle.flow_floor.specs.Bursting.{packets_at, MayComeTo};

/// An end, and how many packets the burst drew or placed there.
#[derive(Clone, Copy)]
pub(crate) struct End {
    pub(crate) connection: u32,
    pub(crate) packets: u32,
}

/// The input and the output to which a burst has come.
#[derive(Clone, Copy)]
pub(crate) struct Ends {
    pub(crate) input: Option<End>,
    pub(crate) output: Option<End>,
}

/// How many packets the burst drew or placed there.
pub(crate) fn packets(end: Option<End>) -> u32
    ensures { result ≡ packets_at end }
{
    match end {
        Some(end) => end.packets,
        None => 0,
    }
}

/// The burst is at this connection, or at none.
pub(crate) fn may_come_to(end: Option<End>, connection: u32) -> bool
    ensures { result ≡ true → MayComeTo connection end }
{
    match end {
        Some(end) => end.connection == connection,
        None => true,
    }
}
