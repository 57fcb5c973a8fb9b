//! The limits of this project, which are its own. Code, contracts and definitions of every other crate cite them from
//! here, so that each number stands once. No contract can refuse another number: `flow_call_trials` compares each with
//! what the documents tell.
#![tactic(auto)]

/// The most processes of a plan.
pub const PROCESS_LIMIT: usize = 128;

/// The most connections of a plan.
pub const CONNECTION_LIMIT: usize = 512;

/// The most elements of an array port.
pub const ELEMENT_LIMIT: usize = 512;

/// The greatest number of an element: elements are counted from 0.
pub const LAST_ELEMENT: u32 = 511;

/// The most ports of a kind on one side.
pub const PORT_LIMIT: usize = 4096;

/// The capacity of a connection where none is given, in packets.
pub const DEFAULT_CAPACITY: u32 = 10;

/// The greatest capacity of a connection, in packets.
pub const CAPACITY_LIMIT: u32 = 4096;

/// The greatest capacity that a network file of the first version gives a connection.
pub const FIRST_CAPACITY_LIMIT: u32 = 1024;

/// The most packets that all connections of a plan together may take.
pub const CAPACITY_SUM_LIMIT: u32 = 65_536;

/// The most senders of a connection.
pub const SENDER_LIMIT: usize = 65_535;

/// The longest initial text, option or text of a packet, in bytes.
pub const TEXT_LIMIT: usize = 1_048_576;

/// The longest pattern, in bytes: to read one takes some four thousand times as much memory as its text.
pub const PATTERN_LIMIT: usize = 65_536;

/// The greatest height of a packet, which is 1 where it has no chains.
pub const HEIGHT_LIMIT: u32 = 16;

/// The longest name of a chain of packets, in bytes.
pub const CHAIN_NAME_LIMIT: usize = 64;

/// The most packets at the root of the hands of one process.
pub const HANDS_LIMIT: usize = 4096;

/// The most turns of one process in a run.
pub const TURN_LIMIT: usize = 8_388_608;

/// The most turns of a run: those of all its processes.
pub const RUN_LIMIT: usize = PROCESS_LIMIT * TURN_LIMIT;

/// The most bytes of a network file, and of an input file.
pub const FILE_LIMIT: u64 = 16_777_216;

/// The most bytes of a journal's file: a header of 16, and 3 for each turn that a run may have, one for its process and two for the number that it
/// saw. No header tells more.
pub const JOURNAL_FILE_LIMIT: u64 = 3_221_225_488;

/// The longest name of a file, in bytes.
pub const FILE_NAME_LIMIT: usize = 255;

/// The longest name of a network file, in bytes: of a process, a port, a kind or a subnet.
pub const NAME_LIMIT: usize = 64;

/// The most statements of a network file, those of its subnets among them.
pub const STATEMENT_LIMIT: usize = 4096;

/// The most processes of a network file that are subnets, when all are written out.
pub const SUBNET_PROCESS_LIMIT: usize = 512;

/// The most subnets that stand one inside the other around a process.
pub const SUBNET_DEPTH: usize = 8;

/// The greatest number from which a network and its input are made; the least is 1.
pub const NUMBER_LIMIT: u32 = 100;

/// The most workers that run a network.
pub const WORKER_LIMIT: u32 = 32;

/// The most entries of a tape: one for each resume of a component that a caller hands in.
pub const TAPE_LIMIT: usize = 1_048_577;
