//! What the component wishes without a packet at hand.

use flow_component::{Answer, Component, Port, Wish};
use flow_packet::Hands;
use flow_streams::Passthru;

#[test]
fn passthru_receives_until_the_end(rt: HostRuntime) {
    let mut passer = Passthru::new();
    let mut hands = Hands::new(rt.alloc(), 0);
    let started = passer.resume(&mut hands, Answer::Start);
    let sent = passer.resume(&mut hands, Answer::Sent);
    let ended = passer.resume(&mut hands, Answer::End);
    hands.discard();
    assert_eq!(rt; started, Ok(Wish::Receive(Port(0))));
    assert_eq!(rt; sent, Ok(Wish::Receive(Port(0))));
    assert_eq!(rt; ended, Ok(Wish::Deactivate));
}
