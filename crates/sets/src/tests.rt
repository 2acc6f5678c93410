// The sets and the stack at their edges.
use crate::facts::{FactSet, LiteralSet, flip};
use crate::stack::Stack;
use crate::steps::StepSet;

#[test]
fn facts(rt: HostRuntime) {
    let full = FactSet::below(64);
    assert_eq!(rt; full.contains(63), true);
    assert_eq!(rt; full.contains(64), false);
    assert_eq!(rt; full.next_from(63), Some(63));
    assert_eq!(rt; full.next_from(64), None);
    assert_eq!(rt; full.minus(FactSet::below(63)).next_from(0), Some(63));
    assert_eq!(rt; FactSet::below(0).is_empty(), true);
    assert_eq!(rt; FactSet::below(usize::MAX).subset(full), true);
    assert_eq!(rt; FactSet::empty().insert(64).is_empty(), true);
    assert_eq!(rt; full.remove(64).contains(0), true);
}

#[test]
fn literals(rt: HostRuntime) {
    let ends = LiteralSet::empty().insert(127).insert(0).insert(128);
    assert_eq!(rt; ends.next_from(0), Some(0));
    assert_eq!(rt; ends.next_from(1), Some(127));
    assert_eq!(rt; ends.next_from(128), None);
    assert_eq!(rt; ends.contains(128), false);
    assert_eq!(rt; ends.opposites().next_from(0), Some(1));
    assert_eq!(rt; ends.intersects(ends.opposites()), false);
    assert_eq!(rt; ends.remove(127).remove(0).is_empty(), true);
    assert_eq!(rt; flip(127), 126);
}

#[test]
fn steps(rt: HostRuntime) {
    let mut set = StepSet::empty();
    assert_eq!(rt; set.only(), None);
    set.insert(255);
    assert_eq!(rt; set.only(), Some(255));
    set.insert(64);
    assert_eq!(rt; set.only(), None);
    assert_eq!(rt; set.next_from(0), Some(64));
    assert_eq!(rt; set.next_from(65), Some(255));
    assert_eq!(rt; set.next_from(256), None);
    set.remove(64);
    assert_eq!(rt; set.contains(63), false);
    assert_eq!(rt; set.intersects(StepSet::empty()), false);
}

#[test]
fn steps_at_the_edges_of_words(rt: HostRuntime) {
    let mut full = StepSet::empty();
    for k in 0..=255 {
        full.insert(k);
    }
    let edges = [0, 63, 64, 127, 128, 255];
    for k in edges {
        let mut rest = full;
        rest.remove(k);
        assert_eq!(rt; full.contains(k), true);
        assert_eq!(rt; full.next_from(k as usize), Some(k as usize));
        assert_eq!(rt; rest.contains(k), false);
        assert_eq!(rt; full.minus(rest).only(), Some(k));
        assert_eq!(rt; full.subset(rest), false);
    }
    assert_eq!(rt; full.is_empty(), false);
    assert_eq!(rt; full.minus(full).is_empty(), true);
}

#[derive(Clone, Copy)]
struct Entry {
    level: u8,
}

#[test]
fn stacks(rt: HostRuntime) {
    let mut bytes = [0, 0];
    let mut stack = Stack::over(&mut bytes);
    assert_eq!(rt; stack.pop(), None);
    assert_eq!(rt; stack.push(7), true);
    assert_eq!(rt; stack.push(8), true);
    assert_eq!(rt; stack.push(9), false);
    assert_eq!(rt; stack.get(1), Some(8u8));
    stack.truncate(1);
    assert_eq!(rt; stack.pop(), Some(7));
}

#[test]
fn stacks_of_other_entries(rt: HostRuntime) {
    let mut pairs = [(1u8, 2u8)];
    let mut stack = Stack::resume(&mut pairs, 5);
    assert_eq!(rt; stack.len(), 1);
    assert_eq!(rt; stack.pop().is_some(), true);
    let mut none: [Entry; 0] = [];
    let mut bare = Stack::over(&mut none);
    assert_eq!(rt; bare.push(Entry { level: 3 }), false);
    assert_eq!(rt; bare.len(), 0);
}
