//! Components at the edge of a network whose files come and go piece by piece: a reader, which is given the file as it
//! is read, and a writer, from which its bytes are taken now and then. Both want something at times, and say so as want
//! of memory does: they are as they were, and the same resume may be made again. So neither the engine nor the floor
//! knows of them; whoever runs the network tends them between its turns. That they come to what the reader and the
//! writer of whole files come to is proved in `flow_rounds`.
#![tactic(auto)]

mod fed;
mod read_pieces;
mod write_pieces;

pub use fed::{Fed, Role};
use flow_limits::TEXT_LIMIT;
pub use read_pieces::ReadPieces;
pub use write_pieces::WritePieces;

/// So many bytes at most are given to a reader at a time, and so many a writer gathers before it wants them to be taken.
pub const PIECE: usize = 1_048_576;

/// The most bytes that a reader or a writer has: a piece, and what was or will be there of a line as long as a packet may be.
pub const KEPT_LIMIT: usize = PIECE + TEXT_LIMIT + 1;
