//! The standard output as a sink. What it took stands in its log: that the system did what it answered is trusted.
ghost use Rattle.std.specs.Prelude.{◌≡◌, []};

use crate::again::print_again;
use flow_text::{Edge, Fault, History, Sink};
use std::alloc::Global;
use std::io;
use std::io::IsTerminal;
use std::marker::Model;

/// So many bytes are kept of what is given.
const KEPT_LIMIT: usize = 1 << 20;

/// The standard output.
#[derive(Drop)]
pub struct StdSink<R: Print + Drop> {
    rt: R,
    write_faults: u64,
    given: History,
    reason: Option<io::Error>,
    /// The first bytes that it was given, where they are to be kept.
    kept: Option<Vec<u8>>,
}

impl<R: Print + Drop> Model for StdSink<R> {
    ghost use Rattle.flow_files.specs.Real.{Streamed};

    ghost Value = { Streamed };

    ghost view = { λ s. record { write_faults = s.write_faults; given = s.given.bytes } };
}

impl<R: Print + Drop> StdSink<R> {
    /// The output that the runtime gives, without a fault so far.
    pub fn new(rt: R) -> Self
        ensures { result ≡ record { write_faults = 0; given = [] } }
    {
        StdSink {
            rt,
            write_faults: 0,
            given: History::none(),
            reason: None,
            kept: None,
        }
    }

    /// Keeps for `kept` what is given from now on, but no more than 1 MiB of it.
    pub fn keep(&mut self, alloc: Global)
        ensures { self.new ≡ self.old }
    {
        self.kept = Some(Vec::new(alloc));
    }

    /// What was kept: nothing, where there was no memory for it.
    pub fn kept(&self) -> &[u8] {
        match &self.kept {
            Some(kept) => kept.as_slice(),
            None => b"",
        }
    }

    // Keeps these bytes, where they are to be kept and there is memory for them.
    fn remember(&mut self, bytes: &[u8])
        ensures { self.new ≡ self.old }
    {
        let is_kept = match &mut self.kept {
            Some(kept) => {
                let left = KEPT_LIMIT.saturating_sub(kept.len());
                kept.extend_from_slice(&bytes[..left.min(bytes.len())])
                    .is_ok()
            }
            None => true,
        };
        if !is_kept {
            self.kept = None;
        }
    }

    /// What the system answered at the last fault.
    pub fn reason(&self) -> Option<io::Error> {
        self.reason
    }
}

impl<R: Print + IsTerminal + Drop> IsTerminal for StdSink<R> {
    fn is_terminal(&self) -> bool {
        self.rt.is_terminal()
    }
}

impl<R: Print + Drop> Edge for StdSink<R> {
    ghost use Rattle.flow_files.specs.Real.{untold_sink};

    ghost outside = { untold_sink };
}

impl<R: Print + Drop> Sink for StdSink<R> {
    fn write(&mut self, bytes: &[u8]) -> Result<usize, Fault> {
        if bytes.is_empty() {
            return Ok(0);
        }
        match print_again(&self.rt, bytes) {
            Ok(n) => {
                self.given = self.given.and(&bytes[..n]);
                self.remember(&bytes[..n]);
                Ok(n)
            }
            Err(error) => {
                self.reason = Some(error);
                self.write_faults = self.write_faults.saturating_add(1);
                Err(Fault)
            }
        }
    }
}
