//! The ready line. (In which order processes are served that were woken rows tell.)
use flow_runner::Line;
use std::test::Fail;

#[test]
fn a_line_gives_what_was_pushed_first(rt: HostRuntime) -> Result<(), Fail> {
    let (line, mut passes) = Line::open(rt.alloc(), 2, 1)?;
    let Some(mut pass) = passes.pop() else {
        unreachable!()
    };
    assert!(rt; line.push(&rt, &mut pass, 0));
    assert!(rt; line.push(&rt, &mut pass, 1));
    assert!(rt; !line.push(&rt, &mut pass, 0));
    assert_eq!(rt; line.pop(&rt, &mut pass), Some(0));
    assert_eq!(rt; line.pop(&rt, &mut pass), Some(1));
    assert_eq!(rt; line.pop(&rt, &mut pass), None);
    passes.push_reserved(pass);
    let left = line.close(&rt, passes);
    assert!(rt; left.is_empty());
    Ok(())
}

#[test]
fn two_passes_share_one_order(rt: HostRuntime) -> Result<(), Fail> {
    let (line, mut passes) = Line::open(rt.alloc(), 3, 2)?;
    let Some(mut one) = passes.pop() else {
        unreachable!()
    };
    let Some(mut other) = passes.pop() else {
        unreachable!()
    };
    assert!(rt; line.push(&rt, &mut one, 2));
    assert!(rt; line.push(&rt, &mut other, 0));
    assert!(rt; line.push(&rt, &mut one, 1));
    assert!(rt; !line.push(&rt, &mut other, 2));
    assert_eq!(rt; line.pop(&rt, &mut other), Some(2));
    assert_eq!(rt; line.pop(&rt, &mut one), Some(0));
    passes.push_reserved(other);
    passes.push_reserved(one);
    let left = line.close(&rt, passes);
    assert_eq!(rt; left.len(), 1);
    assert_eq!(rt; left[0], 1);
    Ok(())
}
