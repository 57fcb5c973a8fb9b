//! The limits as the documents tell them. Code and definitions both cite the constants, so no contract refuses another number.
use flow_batch::AMOUNT_LIMIT;
use flow_limits::{
    CAPACITY_LIMIT, CAPACITY_SUM_LIMIT, CHAIN_NAME_LIMIT, CONNECTION_LIMIT, DEFAULT_CAPACITY,
    ELEMENT_LIMIT, FILE_LIMIT, FILE_NAME_LIMIT, FIRST_CAPACITY_LIMIT, HANDS_LIMIT, HEIGHT_LIMIT,
    JOURNAL_FILE_LIMIT, LAST_ELEMENT, NAME_LIMIT, NUMBER_LIMIT, PATTERN_LIMIT, PORT_LIMIT,
    PROCESS_LIMIT, RUN_LIMIT, SENDER_LIMIT, STATEMENT_LIMIT, SUBNET_DEPTH, SUBNET_PROCESS_LIMIT,
    TAPE_LIMIT, TEXT_LIMIT, TURN_LIMIT, WORKER_LIMIT,
};
use flow_tape::TAPE_FILE_LIMIT;

const LIMITS: &[(usize, usize)] = &[
    (PROCESS_LIMIT, 128),
    (CONNECTION_LIMIT, 512),
    (ELEMENT_LIMIT, 512),
    (LAST_ELEMENT as usize, 511),
    (PORT_LIMIT, 4_096),
    (DEFAULT_CAPACITY as usize, 10),
    (CAPACITY_LIMIT as usize, 4_096),
    (FIRST_CAPACITY_LIMIT as usize, 1_024),
    (CAPACITY_SUM_LIMIT as usize, 65_536),
    (SENDER_LIMIT, 65_535),
    (NAME_LIMIT, 64),
    (FILE_NAME_LIMIT, 255),
    (TEXT_LIMIT, 1_048_576),
    (PATTERN_LIMIT, 65_536),
    (HEIGHT_LIMIT as usize, 16),
    (CHAIN_NAME_LIMIT, 64),
    (HANDS_LIMIT, 4_096),
    (TURN_LIMIT, 8_388_608),
    (STATEMENT_LIMIT, 4_096),
    (SUBNET_PROCESS_LIMIT, 512),
    (SUBNET_DEPTH, 8),
    (NUMBER_LIMIT as usize, 100),
    (WORKER_LIMIT as usize, 32),
    (FILE_LIMIT as usize, 16_777_216),
    (JOURNAL_FILE_LIMIT as usize, 3_221_225_488),
    (RUN_LIMIT, 1_073_741_824),
    (TAPE_LIMIT, 1_048_577),
    (TAPE_FILE_LIMIT as usize, 1_073_741_824),
    (AMOUNT_LIMIT as usize, 1_000_000_000_000_000),
];

#[test]
fn the_limits_are_those_that_are_told(rt: HostRuntime) {
    for (limit, told) in LIMITS {
        assert!(rt; *limit == *told, "it is {limit}, and {told} is told");
    }
}
