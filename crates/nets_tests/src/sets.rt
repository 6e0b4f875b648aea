use disjoint_sets::DisjointSets;

#[test]
fn joined_sets_have_one_number(rt: HostRuntime) {
    let mut sets = DisjointSets::new(rt.alloc(), 6).expect(&rt, "memory");
    sets.join(5, 3);
    sets.join(1, 5);
    let least = sets.least(5);
    assert_eq!(rt; least, 1);
    let numbering = sets.numbering(rt.alloc()).expect(&rt, "memory");
    assert_eq!(rt; numbering.sets, 4);
    assert!(rt; numbering.numbers.as_slice() == [0, 1, 2, 1, 3, 1].as_slice());
}
