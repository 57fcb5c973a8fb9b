//! What one worker's calls tell while another one's go on.
use crate::floor::opened::{READ, Staffed, WRITE, discard, merged, opened};
use crate::floor::steps::{
    claims, claims_in_vain, hands_back, makes, parks, reads_live, stays_dormant, woke,
};

/// The word of a process that is held.
const HELD: u64 = 1;

/// The word of a connection without packets that has one open sender.
const ONE_SENDER: u64 = 65_536;

#[test]
fn a_parked_process_is_woken(rt: HostRuntime) {
    let Staffed {
        floor,
        mut first,
        mut second,
        rooms,
    } = opened(&rt, rt.alloc());
    reads_live(&rt, &floor, &mut first, 2);
    let mut reader = claims(&rt, &floor, &mut first, READ);
    claims_in_vain(&rt, &floor, &mut second, READ, HELD);
    let mut writer = claims(&rt, &floor, &mut second, WRITE);
    stays_dormant(&rt, &floor, &mut second, &mut writer, ONE_SENDER);
    parks(&floor, &mut second, writer);
    reads_live(&rt, &floor, &mut second, 1);
    makes(&rt, &floor, &mut first, &mut reader, 0);
    woke(&rt, &first, &[]);
    makes(&rt, &floor, &mut first, &mut reader, 1);
    woke(&rt, &first, &[WRITE as u32]);
    reads_live(&rt, &floor, &mut second, 2);
    let writer = claims(&rt, &floor, &mut second, WRITE);
    hands_back(&floor, &mut first, reader);
    woke(&rt, &first, &[READ as u32]);
    hands_back(&floor, &mut second, writer);
    discard(&rt, rt.alloc(), floor, first, second, rooms);
}

#[test]
fn stamps_are_one_for_all(rt: HostRuntime) {
    let Staffed {
        floor,
        mut first,
        mut second,
        rooms,
    } = opened(&rt, rt.alloc());
    let mut reader = claims(&rt, &floor, &mut first, READ);
    let mut writer = claims(&rt, &floor, &mut second, WRITE);
    stays_dormant(&rt, &floor, &mut second, &mut writer, ONE_SENDER);
    hands_back(&floor, &mut second, writer);
    makes(&rt, &floor, &mut first, &mut reader, 0);
    makes(&rt, &floor, &mut first, &mut reader, 1);
    hands_back(&floor, &mut first, reader);
    let mut writer = claims(&rt, &floor, &mut second, WRITE);
    makes(&rt, &floor, &mut second, &mut writer, 2);
    hands_back(&floor, &mut second, writer);
    let journal = merged(&rt, rt.alloc(), floor, first, second, rooms);
    assert_eq!(&rt;
        journal.turns.as_slice(),
        [READ as u8, READ as u8, WRITE as u8].as_slice()
    );
    assert!(&rt; journal.seen.is_empty());
}
