//! How a call ended, and what is said of it.
ghost use Rattle.std.specs.Prelude.{◌≡◌};
ghost use Rattle.flow_draw.specs.Draws.{program_status};

use flow_load::{Status, Stop};
use std::alloc::{AllocError, Global};

/// How a call ended.
#[derive(Debug, Drop)]
pub enum DrawStatus {
    /// The drawing was printed.
    Drawn,
    /// A first part of the drawing was printed, and then the output failed.
    Unwritten,
    /// Nothing was printed, for this cause.
    Stopped(Stop),
}

impl DrawStatus {
    /// The status with which the program ends.
    pub fn status(&self) -> Status
        ensures { result ≡ program_status self.now }
    {
        match self {
            DrawStatus::Drawn => Status::Finished,
            DrawStatus::Unwritten => Status::WriteFault,
            DrawStatus::Stopped(stop) => stop.status(),
        }
    }

    /// The line on the standard error, and none where the drawing was printed.
    pub fn text(&self, alloc: Global) -> Result<Vec<u8>, AllocError> {
        match self {
            DrawStatus::Drawn => Ok(Vec::new(alloc)),
            DrawStatus::Unwritten => b"write fault: the output\n".to_vec(alloc),
            DrawStatus::Stopped(Stop::Words) => {
                b"usage: draw [--dot] [--fold] [--journal FILE] NETFILE\n".to_vec(alloc)
            }
            DrawStatus::Stopped(stop) => stop.text(alloc),
        }
    }
}
