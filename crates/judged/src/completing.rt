// What follows from the facts: parts that become one, values that come together, classes that are gained.
use crate::making::{
    clash, exclusion, in_class, judged, key, one_object, pullback, standing, subclass, value,
    value_at,
};
use judge::sheet::Sheet;
use judge::verdict::Verdict;
use terms::kind::RowKind;
use terms::row::Row;

// The lowest part that is one object with it, as the sheet holds it.
fn leader(sheet: &Sheet, part: u8) -> Option<u8> {
    let judgement = sheet.judgement.as_ref()?;
    Some(judgement.parts[usize::from(part)].leader)
}

// The leader of the part's value, as the sheet holds it.
fn value_leader(sheet: &Sheet, part: u8, feature: u8) -> Option<u8> {
    let judgement = sheet.judgement.as_ref()?;
    judgement.parts[usize::from(part)].value(feature)
}

// Each two parts agree only once the next two are one.
#[test]
fn keys_that_wait_for_each_other(rt: HostRuntime) {
    let facts = [
        in_class(1, 0),
        in_class(2, 0),
        in_class(3, 0),
        in_class(4, 0),
        in_class(5, 0),
        in_class(6, 0),
        value_at(1, 0, 3),
        value_at(2, 0, 4),
        value_at(3, 0, 5),
        value_at(4, 0, 6),
        value_at(5, 0, 255),
        value_at(6, 0, 255),
    ];
    let sheet = standing(&rt, &[key(0, 0, 0)], &facts);
    for (p, q) in [(1, 2), (3, 4), (5, 6)] {
        assert_eq!(rt; sheet.same(p, q), Ok(true), "{p} and {q}");
    }
    for (p, q) in [(1, 3), (3, 5), (5, 255)] {
        assert_eq!(rt; sheet.same(p, q), Ok(false), "{p} and {q}");
    }
}

// Part 1 comes into the left class of one key as it becomes one with part 2 by the other.
#[test]
fn a_class_that_a_merge_brings_lets_another_key_join(rt: HostRuntime) {
    let facts = [
        in_class(1, 0),
        in_class(2, 1),
        value_at(1, 0, 9),
        value_at(2, 0, 9),
        in_class(2, 3),
        in_class(3, 4),
        value_at(1, 1, 8),
        value_at(3, 1, 8),
    ];
    let keys = [key(3, 1, 4), key(0, 0, 1)];
    let sheet = standing(&rt, &keys, &facts);
    assert_eq!(rt; sheet.same(1, 2), Ok(true));
    assert_eq!(rt; sheet.same(1, 3), Ok(true));
    assert_eq!(rt; sheet.same(8, 9), Ok(false));
    let sheet = standing(&rt, &keys[..1], &facts);
    assert_eq!(rt; sheet.same(2, 3), Ok(false), "without the other key");
}

// A key over the features 2 and 7.
fn key_over_two() -> Row {
    Row {
        kind: RowKind::Key as u8,
        count: 2,
        features: [2, 7, 0, 0],
        ..Row::default()
    }
}

#[test]
fn a_key_asks_every_feature_in_use(rt: HostRuntime) {
    let facts = [
        in_class(1, 0),
        in_class(2, 0),
        value_at(1, 2, 9),
        value_at(2, 2, 9),
        value_at(1, 7, 10),
        value_at(2, 7, 11),
        one_object(10, 11),
    ];
    let sheet = standing(&rt, &[key_over_two()], &facts);
    assert_eq!(rt; sheet.same(1, 2), Ok(true));
    let sheet = standing(&rt, &[key_over_two()], &facts[..6]);
    assert_eq!(rt; sheet.same(1, 2), Ok(false), "another value");
    let sheet = standing(&rt, &[key_over_two()], &facts[..5]);
    assert_eq!(rt; sheet.same(1, 2), Ok(false), "one untold");
}

#[test]
fn a_key_takes_a_part_of_each_class(rt: HostRuntime) {
    let facts = [
        value_at(5, 0, 9),
        value_at(6, 0, 9),
        in_class(5, 0),
        in_class(6, 0),
        value_at(4, 0, 9),
        in_class(4, 1),
    ];
    let sheet = standing(&rt, &[key(0, 0, 1)], &facts[..4]);
    assert_eq!(rt; sheet.same(5, 6), Ok(false), "both in the left one");
    let sheet = standing(&rt, &[key(0, 0, 1)], &facts);
    for (p, q) in [(4, 5), (4, 6), (5, 6)] {
        assert_eq!(rt; sheet.same(p, q), Ok(true), "{p} and {q}");
    }
}

#[test]
fn two_parts_made_one_clash_in_their_classes(rt: HostRuntime) {
    let facts = [
        in_class(1, 0),
        in_class(2, 1),
        value_at(1, 0, 9),
        value_at(2, 0, 9),
    ];
    let rows = [exclusion(1, 0), key(0, 0, 1)];
    let (verdict, _) = judged(&rt, &rows, &facts);
    // Either part may be named.
    assert!(rt;
        verdict == clash(1, 0, 0) || verdict == clash(2, 0, 0),
        "{verdict:?}"
    );
    let (verdict, _) = judged(&rt, &rows[..1], &facts);
    assert_eq!(rt; verdict, Ok(Verdict::Stands));
}

#[test]
fn a_merge_brings_values_together(rt: HostRuntime) {
    let facts = [
        value_at(1, 0, 50),
        value_at(2, 0, 60),
        value_at(50, 3, 70),
        value_at(60, 3, 80),
        value_at(2, 15, 90),
        one_object(2, 1),
        in_class(1, 0),
    ];
    let sheet = standing(&rt, &[value(0, 15, 4)], &facts);
    for (p, q) in [(1, 2), (50, 60), (70, 80)] {
        assert_eq!(rt; sheet.same(p, q), Ok(true), "{p} and {q}");
    }
    assert_eq!(rt; sheet.same(50, 70), Ok(false));
    assert_eq!(rt; value_leader(&sheet, 1, 15), Some(90));
    for part in [1, 2] {
        assert_eq!(rt; sheet.member(part, &[15], 4), Ok(true), "from {part}");
    }
    assert_eq!(rt; sheet.member(90, &[], 4), Ok(true));
}

#[test]
fn two_values_told_of_one_feature_are_one(rt: HostRuntime) {
    let facts = [value_at(7, 5, 20), value_at(7, 5, 10), in_class(20, 6)];
    let sheet = standing(&rt, &[], &facts);
    assert_eq!(rt; sheet.same(10, 20), Ok(true));
    assert_eq!(rt; sheet.member(10, &[], 6), Ok(true));
    assert_eq!(rt; sheet.member(7, &[5], 6), Ok(true));
    assert_eq!(rt; sheet.member(7, &[], 6), Ok(false));
}

#[test]
fn a_class_reached_through_pullbacks(rt: HostRuntime) {
    let rows = [pullback(4, 1, 5), subclass(3, 4), pullback(2, 0, 3)];
    let facts = [value_at(1, 1, 3), value_at(3, 0, 8), in_class(8, 2)];
    let sheet = standing(&rt, &rows, &facts);
    for (part, class) in [(8, 2), (3, 3), (3, 4), (1, 5)] {
        assert_eq!(rt; sheet.member(part, &[], class), Ok(true), "part {part}");
    }
    for (part, class) in [(8, 3), (3, 5), (1, 4), (3, 2)] {
        assert_eq!(rt; sheet.member(part, &[], class), Ok(false), "part {part}");
    }
    assert_eq!(rt; sheet.member(1, &[1, 0], 2), Ok(true));
    assert_eq!(rt; sheet.member(1, &[0, 1], 2), Ok(false));
}

#[test]
fn leaders_are_the_lowest_parts(rt: HostRuntime) {
    let facts = [
        one_object(200, 9),
        value_at(100, 2, 200),
        one_object(9, 7),
        one_object(255, 254),
        one_object(3, 7),
    ];
    let sheet = standing(&rt, &[], &facts);
    for part in [3, 7, 9, 200] {
        assert_eq!(rt; leader(&sheet, part), Some(3), "part {part}");
    }
    assert_eq!(rt; value_leader(&sheet, 100, 2), Some(3));
    assert_eq!(rt; value_leader(&sheet, 100, 1), None);
    for (part, lowest) in [(0, 0), (8, 8), (100, 100), (254, 254), (255, 254)] {
        assert_eq!(rt; leader(&sheet, part), Some(lowest), "part {part}");
    }
}
