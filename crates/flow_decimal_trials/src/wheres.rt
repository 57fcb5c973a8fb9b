//! What a Where wishes without a packet at hand.

use flow_component::{Answer, Component, Port, Wish};
use flow_decimal::Bound;
use flow_packet::Hands;
use flow_where::Where;

#[test]
fn a_where_receives_until_the_end(rt: HostRuntime) {
    let bound = Bound::parse(b"> 1").expect(&rt, "a bound");
    let mut component = Where::new(bound, false);
    let mut hands = Hands::new(rt.alloc(), 0);
    let started = component.resume(&mut hands, Answer::Start);
    let sent = component.resume(&mut hands, Answer::Sent);
    let ended = component.resume(&mut hands, Answer::End);
    hands.discard();
    assert_eq!(rt; started, Ok(Wish::Receive(Port(0))));
    assert_eq!(rt; sent, Ok(Wish::Receive(Port(0))));
    assert_eq!(rt; ended, Ok(Wish::Deactivate));
}
