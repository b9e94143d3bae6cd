// Full expressions as a run notes them. Tables of many expressions stand in `layer-tests`.
use pv_seq::{Journal, SeqStop};

/// `i = i++` (C17 6.5p2): the store of `=` conflicts with that of `++`, which the operand left behind. The object is the
/// four bytes at 32.
#[test]
fn unsequenced_stores_conflict(rt: HostRuntime) {
    let mut j = Journal::new(rt.alloc());
    j.full().expect(&rt, "no memory");
    j.enter(true).expect(&rt, "no memory");
    assert!(rt; j.access(32, 4, false).is_ok());
    assert!(rt; j.access(32, 4, true).is_ok());
    j.leave();
    let earlier = (32, 4, true);
    assert!(rt;
        matches!(j.access(32, 4, true), Err(SeqStop::Conflict { earlier: told }) if told == earlier)
    );
    j.close();
}

/// `i++, i = 2`: the comma is a sequence point, so that the second operand may store again.
#[test]
fn a_sequence_point_settles(rt: HostRuntime) {
    let mut j = Journal::new(rt.alloc());
    j.full().expect(&rt, "no memory");
    j.enter(true).expect(&rt, "no memory");
    assert!(rt; j.access(32, 4, true).is_ok());
    j.leave();
    j.sequence_point();
    j.enter(false).expect(&rt, "no memory");
    assert!(rt; j.access(32, 4, true).is_ok());
    j.leave();
    j.close();
}
