//! Values that were worked out by hand, and that the calls succeed with ample memory.

ghost use Rattle.std.specs.Prelude.{◌≡◌, position};
ghost use Rattle.flow_packet.specs.Hands.{IsAtRoot, has_id};

use flow_packet::{AttachStop, Hands, HandsStop, Kind, PacketId};
use std::alloc::{AllocError, Global};
use std::process::Abort;
use std::test::Fail;

fn place_of(hands: &Hands, id: PacketId) -> Option<usize>
    ensures { result ≡ position (has_id id) hands.now.packets }
{
    hands.packets().iter().position(|packet| packet.id() == id)
}

fn is_at_root(rt: &impl Abort, hands: &Hands, id: PacketId)
    ensures { IsAtRoot hands.now.packets id }
{
    match place_of(hands, id) {
        Some(_) => {}
        None => panic!(rt; "the packet isn't at the root"),
    }
}

fn try_make(rt: &impl Abort, hands: &mut Hands, text: &[u8]) -> Result<PacketId, HandsStop> {
    assert!(rt; hands.made() < 1_000_000);
    hands.make(Kind::Normal, text)
}

fn make(rt: &impl Abort, hands: &mut Hands, text: &[u8]) -> PacketId {
    match try_make(rt, hands, text) {
        Ok(id) => id,
        Err(_) => panic!(rt; "no packet was made"),
    }
}

fn attach(
    rt: &impl Abort,
    hands: &mut Hands,
    root: PacketId,
    child: PacketId,
) -> Result<(), AttachStop> {
    is_at_root(rt, hands, root);
    is_at_root(rt, hands, child);
    assert!(rt; root != child);
    hands.attach(root, b"items", child)
}

fn detach(
    rt: &impl Abort,
    hands: &mut Hands,
    root: PacketId,
    chain: &[u8],
) -> Result<Option<PacketId>, HandsStop> {
    is_at_root(rt, hands, root);
    hands.detach(root, chain)
}

fn drop_packet(rt: &impl Abort, hands: &mut Hands, id: PacketId) {
    is_at_root(rt, hands, id);
    hands.drop_packet(id);
}

#[test]
fn an_id_is_the_maker_times_two_to_the_32_plus_the_ordinal(rt: HostRuntime) {
    let mut hands = Hands::new(rt.alloc(), 3);
    let id = make(&rt, &mut hands, b"first");
    assert_eq!(rt; (id.maker(), id.ordinal()), (3, 0));
    assert_eq!(rt; id, PacketId::of_number(12_884_901_888));
    hands.discard();
}

fn text_of_length(alloc: Global, length: usize) -> Result<Vec<u8>, AllocError> {
    vec![in alloc; b'x'; length]
}

#[test]
fn a_text_is_one_byte_too_long(rt: HostRuntime) -> Result<(), Fail> {
    let text = text_of_length(rt.alloc(), 1_048_577)?;
    let mut hands = Hands::new(rt.alloc(), 0);
    let refused = try_make(&rt, &mut hands, &text);
    hands.discard();
    assert_eq!(rt; refused, Err(HandsStop::TextLimit(1_048_577)));
    Ok(())
}

// Takes two packets over, for which there is room once two places are reserved.
fn take_over(
    rt: &impl Abort,
    from: &mut Hands,
    to: &mut Hands,
    first: PacketId,
    second: PacketId,
) -> bool {
    if to.reserve(2).is_err() {
        return false;
    }
    assert!(rt; to.packets().len() < 4095);
    is_at_root(rt, from, first);
    to.put(from.take(first));
    is_at_root(rt, from, second);
    to.put(from.take(second));
    true
}

#[test]
fn two_reserved_places_take_two_packets(rt: HostRuntime) {
    let mut from = Hands::new(rt.alloc(), 1);
    let mut to = Hands::new(rt.alloc(), 2);
    let first = make(&rt, &mut from, b"first");
    let second = make(&rt, &mut from, b"second");
    assert!(rt; take_over(&rt, &mut from, &mut to, first, second));
    assert_eq!(rt; (from.packets().len(), to.packets().len()), (0, 2));
    is_at_root(&rt, &to, second);
    assert_eq!(rt; to.text(second), b"second".as_slice());
    from.discard();
    to.discard();
}

#[test]
fn a_tree_is_sixteen_packets_high_at_most(rt: HostRuntime) {
    let mut hands = Hands::new(rt.alloc(), 0);
    let mut top = make(&rt, &mut hands, b"leaf");
    for _ in 0..15 {
        let root = make(&rt, &mut hands, b"root");
        assert_eq!(rt; attach(&rt, &mut hands, root, top), Ok(()));
        top = root;
    }
    let root = make(&rt, &mut hands, b"root");
    assert_eq!(rt;
        attach(&rt, &mut hands, root, top),
        Err(AttachStop::TreeDepth)
    );
    assert_eq!(rt; detach(&rt, &mut hands, root, b"items"), Ok(None));
    drop_packet(&rt, &mut hands, top);
    assert_eq!(rt; hands.dropped(), 16);
    hands.discard();
}

// A tree that is taken out of other hands.
#[test]
fn a_packet_that_is_swallowed_counts_with_its_tree(rt: HostRuntime) {
    let mut from = Hands::new(rt.alloc(), 1);
    let mut hands = Hands::new(rt.alloc(), 2);
    let root = make(&rt, &mut from, b"root");
    let child = make(&rt, &mut from, b"child");
    assert_eq!(rt; attach(&rt, &mut from, root, child), Ok(()));
    is_at_root(&rt, &from, root);
    hands.swallow(from.take(root));
    assert_eq!(rt; (from.dropped(), hands.dropped()), (0, 2));
    assert_eq!(rt; (from.made(), hands.made()), (2, 0));
    from.discard();
    hands.discard();
}

// A quadratic detach would take minutes here.
#[test]
fn long_chains_are_attached_and_detached_in_linear_time(rt: HostRuntime) {
    let mut hands = Hands::new(rt.alloc(), 0);
    let root = make(&rt, &mut hands, b"root");
    for _ in 0..300_000u32 {
        let child = make(&rt, &mut hands, b"child");
        assert_eq!(rt; attach(&rt, &mut hands, root, child), Ok(()));
    }
    for ordinal in 1..300_001u32 {
        let child = PacketId::of_number(u64::from(ordinal));
        assert_eq!(rt; detach(&rt, &mut hands, root, b"items"), Ok(Some(child)));
        drop_packet(&rt, &mut hands, child);
    }
    assert_eq!(rt; detach(&rt, &mut hands, root, b"items"), Ok(None));
    hands.discard();
}
