//! What the components wish without a packet at hand.

use flow_component::{Answer, Component, Port, Wish};
use flow_packet::Hands;
use flow_pick::{Head, Tail, Unique};

#[test]
fn a_unique_receives_until_the_end(rt: HostRuntime) {
    let mut unique = Unique::new(rt.alloc(), false);
    let mut hands = Hands::new(rt.alloc(), 0);
    let started = unique.resume(&mut hands, Answer::Start);
    let sent = unique.resume(&mut hands, Answer::Sent);
    let ended = unique.resume(&mut hands, Answer::End);
    hands.discard();
    assert_eq!(rt; started, Ok(Wish::Receive(Port(0))));
    assert_eq!(rt; sent, Ok(Wish::Receive(Port(0))));
    assert_eq!(rt; ended, Ok(Wish::Deactivate));
}

#[test]
fn a_head_receives_until_the_end(rt: HostRuntime) {
    let mut head = Head::new(1, true);
    let mut hands = Hands::new(rt.alloc(), 0);
    let started = head.resume(&mut hands, Answer::Start);
    let sent = head.resume(&mut hands, Answer::Sent);
    let ended = head.resume(&mut hands, Answer::End);
    hands.discard();
    assert_eq!(rt; started, Ok(Wish::Receive(Port(0))));
    assert_eq!(rt; sent, Ok(Wish::Receive(Port(0))));
    assert_eq!(rt; ended, Ok(Wish::Deactivate));
}

#[test]
fn a_tail_receives_until_the_end(rt: HostRuntime) {
    let mut tail = Tail::new(1, true);
    let mut hands = Hands::new(rt.alloc(), 0);
    let started = tail.resume(&mut hands, Answer::Start);
    let sent = tail.resume(&mut hands, Answer::Sent);
    let ended = tail.resume(&mut hands, Answer::End);
    hands.discard();
    assert_eq!(rt; started, Ok(Wish::Receive(Port(0))));
    assert_eq!(rt; sent, Ok(Wish::Receive(Port(0))));
    assert_eq!(rt; ended, Ok(Wish::Deactivate));
}
