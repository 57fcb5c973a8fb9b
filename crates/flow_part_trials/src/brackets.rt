//! Streams that were matched by hand.

use flow_bracket::substreams;
use flow_packet::Kind;
use std::test::Fail;

#[test]
fn the_pairs_stand_in_the_order_of_the_opens(rt: HostRuntime) -> Result<(), Fail> {
    let kinds = [
        Kind::Open,
        Kind::Normal,
        Kind::Open,
        Kind::Close,
        Kind::Close,
    ];
    let pairs = substreams(rt.alloc(), &kinds)?.ok_or("overclosed")?;
    assert_eq!(rt; pairs.as_slice(), [(0, 4), (2, 3)].as_slice());
    Ok(())
}

#[test]
fn a_close_alone_has_no_pairs(rt: HostRuntime) -> Result<(), Fail> {
    assert!(rt; substreams(rt.alloc(), &[Kind::Close])?.is_none());
    Ok(())
}
