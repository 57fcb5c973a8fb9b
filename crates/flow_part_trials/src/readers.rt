//! That the components come to their wishes with ample memory, and what they read and write.

use flow_component::{Answer, Component, Port, Wish};
use flow_packet::{Hands, Kind};
use flow_parts::{ReadLines, WriteLines};
use std::test::Fail;

#[test]
fn a_line_loses_its_carriage_return(rt: HostRuntime) -> Result<(), Fail> {
    let mut reader = ReadLines::new(b"a\r\nb".to_vec(rt.alloc())?);
    let mut hands = Hands::new(rt.alloc(), 0);
    let wish = reader.resume(&mut hands, Answer::Start);
    assert_eq!(rt; hands.packets().len(), 1);
    assert_eq!(rt; hands.packets()[0].text(), b"a".as_slice());
    assert_eq!(rt; wish, Ok(Wish::Send(Port(0), hands.packets()[0].id())));
    hands.discard();
    Ok(())
}
