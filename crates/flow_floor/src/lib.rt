//! The shared object on which workers run a network, whose connections have two ends: one worker sends at the one while
//! another receives at the other. `flow_runner` has its workers claim processes on it and make their turns. The contracts
//! are those of the methods of `Floor`, and behind them stands the rule of `specs/Rule.antt`, which each step of each
//! worker keeps: at each moment the floor is a net that a schedule leads to.
#![tactic(auto)]

mod back;
mod board;
mod burst;
mod crew;
mod ends;
mod floor;
mod gates;
mod held;
mod idle;
mod inputs;
mod lays;
mod lent;
mod open;
mod packets;
mod plays;
mod rack;
mod receive;
mod refill;
mod roll;
mod rooms;
mod send;
mod settle;
mod shut;
mod solo;
mod steps;
mod still;
mod tells;
mod told;
mod turn;
mod wake;
mod words;

pub use board::{Lawful, Slot, View};
pub use floor::{Burst, Claim, Floor, Held, Turned, Worker};
pub use open::{OpenStop, Opened};
pub use rack::Rack;
pub use rooms::Rooms;
pub use still::no_process_moves_once_a_worker_has_read_zero;
