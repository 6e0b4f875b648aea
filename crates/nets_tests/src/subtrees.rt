//! Tests of subtrees.
use crate::sample::sample;
use pm_subtree::subtree;

#[test]
#[tactic(auto, using(pm_subtree::proofs::Samples::sample_elaborated))]
fn paths_lead_to_components(rt: HostRuntime) {
    let design = sample(rt.alloc()).expect(&rt, "memory");
    let whole = subtree(rt.alloc(), &design, b"s").expect(&rt, "memory");
    let whole = whole.expect(&rt, "the top");
    assert_eq!(rt; whole.top, 1);
    assert_eq!(rt; whole.kinds.len(), 2);
    let child = subtree(rt.alloc(), &design, b"s.add").expect(&rt, "memory");
    let child = child.expect(&rt, "the child");
    assert_eq!(rt; child.top, 0);
    assert_eq!(rt; child.kinds.len(), 2);
    assert!(rt; child.kinds.as_slice()[1].class.as_slice() == b"Keeper".as_slice());
    for path in [
        b"".as_slice(),
        b"add".as_slice(),
        b"s.ad".as_slice(),
        b"s.add.add".as_slice(),
        b"s.".as_slice(),
        b"s.none".as_slice(),
    ] {
        let none = subtree(rt.alloc(), &design, path).expect(&rt, "memory");
        assert!(rt; none.is_none());
    }
}
