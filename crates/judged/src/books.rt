// Small books whose verdicts and answers are known.
use crate::making::{chain, check_word, clash, fork, in_class, judged, key, standing, value_at};
use terms::example::example;

#[test]
fn a_part_in_a_class_that_is_impossible(rt: HostRuntime) {
    let (verdict, sheet) = judged(&rt, &example(), &[in_class(7, 0)]);
    assert_eq!(rt; verdict, clash(7, 3, 0));
    check_word(&rt, &sheet, &[]);
}

#[test]
fn a_part_in_a_class_that_is_possible(rt: HostRuntime) {
    let sheet = standing(&rt, &example(), &[in_class(7, 1)]);
    for (class, yes) in [(0, false), (1, true), (2, true), (3, false)] {
        assert_eq!(rt; sheet.member(7, &[], class), Ok(yes), "class {class}");
    }
}

#[test]
fn a_class_that_follows_from_where_the_value_is(rt: HostRuntime) {
    let sheet = standing(&rt, &example()[..3], &[in_class(7, 0)]);
    for (class, yes) in [(0, true), (1, false), (2, false), (3, true)] {
        assert_eq!(rt; sheet.member(7, &[], class), Ok(yes), "class {class}");
    }
    for (class, yes) in [(0, false), (1, true), (2, true), (3, false)] {
        assert_eq!(rt; sheet.member(7, &[0], class), Ok(yes), "class {class}");
    }
}

#[test]
fn a_clash_at_what_no_fact_names(rt: HostRuntime) {
    let (verdict, sheet) = judged(&rt, &chain(), &[in_class(0, 0)]);
    assert_eq!(rt; verdict, clash(0, 2, 2));
    check_word(&rt, &sheet, &[0, 1]);
}

#[test]
fn a_clash_is_shorter_from_the_value_that_is_told(rt: HostRuntime) {
    let facts = [in_class(0, 0), value_at(0, 0, 5)];
    let (verdict, sheet) = judged(&rt, &chain(), &facts);
    assert_eq!(rt; verdict, clash(5, 2, 1));
    check_word(&rt, &sheet, &[1]);
}

#[test]
fn two_classes_whose_values_clash(rt: HostRuntime) {
    let (verdict, sheet) = judged(&rt, &fork(), &[in_class(4, 0), in_class(4, 1)]);
    assert_eq!(rt; verdict, clash(4, 2, 1));
    check_word(&rt, &sheet, &[0]);
}

#[test]
fn one_of_the_two_classes_alone(rt: HostRuntime) {
    let sheet = standing(&rt, &fork(), &[in_class(4, 0)]);
    assert_eq!(rt; sheet.member(4, &[0], 2), Ok(true));
    assert_eq!(rt; sheet.member(4, &[0], 3), Ok(false));
}

#[test]
fn a_key_makes_two_parts_one(rt: HostRuntime) {
    let facts = [
        in_class(1, 0),
        in_class(2, 0),
        value_at(1, 0, 9),
        value_at(2, 0, 9),
    ];
    let sheet = standing(&rt, &[key(0, 0, 0)], &facts);
    assert_eq!(rt; sheet.same(1, 2), Ok(true));
    assert_eq!(rt; sheet.same(1, 9), Ok(false));
}

#[test]
fn an_untold_value_is_no_agreement(rt: HostRuntime) {
    let told = [in_class(1, 0), in_class(2, 0), value_at(1, 0, 9)];
    let sheet = standing(&rt, &[key(0, 0, 0)], &told);
    assert_eq!(rt; sheet.same(1, 2), Ok(false), "told at one");
    let sheet = standing(&rt, &[key(0, 0, 0)], &told[..2]);
    assert_eq!(rt; sheet.same(1, 2), Ok(false), "told at none");
}
