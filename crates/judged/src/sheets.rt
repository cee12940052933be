// Sheets before and after judging, judged anew, and the questions that are refused.
use crate::making::{
    chain, check_word, clash, fork, in_class, judge_over, judged, listing, sealed, standing,
};
use judge::judging::judge;
use judge::sheet::Sheet;
use judge::verdict::Verdict;
use search::ClassPair;
use std::process::Abort;
use stores::additions::Additions;
use stores::calls::tell;
use stores::store::Store;
use stores::told::Told;
use terms::fact::Fact;
use terms::refusal::Refusal;

// The sheet reports just these lines.
fn check_report(rt: &impl Abort, sheet: &Sheet, lines: &[u8]) {
    let mut out = [0; 64];
    assert_eq!(rt; sheet.report(&mut out, 0), Ok(lines.len()));
    assert!(rt; out.starts_with(lines));
}

// Part 4 is in class 0 of the fork, and not known to be in class 1.
fn check_stands(rt: &impl Abort, sheet: &Sheet) {
    assert_eq!(rt; sheet.member(4, &[0], 2), Ok(true));
    assert_eq!(rt; sheet.member(4, &[0], 3), Ok(false));
    assert_eq!(rt; sheet.same(4, 5), Ok(false));
    assert_eq!(rt; sheet.word(&mut [], 0), Err(Refusal::NotClashing));
    check_report(rt, sheet, b"rules 3\nfacts 1\nstands\n");
}

// Part 4 is in both classes of the fork.
fn check_clashes(rt: &impl Abort, sheet: &Sheet) {
    assert_eq!(rt; sheet.member(4, &[0], 2), Err(Refusal::NotStanding));
    assert_eq!(rt; sheet.same(4, 5), Err(Refusal::NotStanding));
    check_word(rt, sheet, &[0]);
    check_report(rt, sheet, b"rules 3\nfacts 2\nclash part 4 row 2 word 0\n");
}

#[test]
fn a_fact_told_after_a_judging_counts_at_the_next(rt: HostRuntime) {
    let book = sealed(&rt, &fork());
    let mut table = [Fact::default(); 1];
    let mut pile = Additions::over(listing(&rt, &mut table, &[in_class(4, 0)]));
    let mut sheet = Sheet::new();
    assert_eq!(rt; judge_over(&book, &pile, &mut sheet), Ok(Verdict::Stands));
    check_stands(&rt, &sheet);
    assert_eq!(rt; tell(&mut pile, in_class(4, 1)), Ok(Told::Added));
    check_stands(&rt, &sheet);
    assert_eq!(rt; judge_over(&book, &pile, &mut sheet), clash(4, 2, 1));
    check_clashes(&rt, &sheet);
}

#[test]
fn a_refused_judging_changes_no_answer(rt: HostRuntime) {
    let book = sealed(&rt, &fork());
    let mut table = [Fact::default(); 2];
    let mut store = listing(&rt, &mut table, &[in_class(4, 0)]);
    let mut sheet = Sheet::new();
    assert_eq!(rt; judge_over(&book, &store, &mut sheet), Ok(Verdict::Stands));
    assert_eq!(rt; store.tell(in_class(4, 1)), Ok(Told::Added));
    let refused = judge(&book, &store, &mut sheet, &mut [], &mut []);
    assert_eq!(rt; refused, Err(Refusal::WorkAreasTooSmall));
    check_stands(&rt, &sheet);
    assert_eq!(rt; judge_over(&book, &store, &mut sheet), clash(4, 2, 1));
    let refused = judge(&book, &store, &mut sheet, &mut [], &mut []);
    assert_eq!(rt; refused, Err(Refusal::WorkAreasTooSmall));
    check_clashes(&rt, &sheet);
}

#[test]
fn a_sheet_of_another_book(rt: HostRuntime) {
    let (verdict, mut sheet) = judged(&rt, &chain(), &[in_class(0, 0)]);
    assert_eq!(rt; verdict, clash(0, 2, 2));
    let mut table = [Fact::default(); 1];
    let store = listing(&rt, &mut table, &[in_class(4, 0)]);
    let book = sealed(&rt, &fork());
    assert_eq!(rt; judge_over(&book, &store, &mut sheet), Ok(Verdict::Stands));
    check_stands(&rt, &sheet);
    assert_eq!(rt; sheet.member(0, &[], 0), Ok(false));
}

#[test]
fn work_areas(rt: HostRuntime) {
    let book = sealed(&rt, &chain());
    let mut table = [Fact::default(); 1];
    let store = listing(&rt, &mut table, &[in_class(0, 0)]);
    let mut pairs = [ClassPair::default(); 4097];
    let mut parts = [0; 257];
    let too_small = Err(Refusal::WorkAreasTooSmall);
    for (pairs_lent, parts_lent, answer) in [
        (4095, 256, too_small),
        (4096, 255, too_small),
        (4096, 256, clash(0, 2, 2)),
        (4097, 257, clash(0, 2, 2)),
    ] {
        let verdict = judge(
            &book,
            &store,
            &mut Sheet::new(),
            &mut pairs[..pairs_lent],
            &mut parts[..parts_lent],
        );
        assert_eq!(rt; verdict, answer, "{pairs_lent} and {parts_lent}");
    }
}

// Each call with whatever else may be wrong.
fn check_not_judged(rt: &impl Abort, sheet: &Sheet) {
    assert_eq!(rt; sheet.member(0, &[16], 64), Err(Refusal::NotJudged));
    assert_eq!(rt; sheet.same(0, 0), Err(Refusal::NotJudged));
    assert_eq!(rt; sheet.word(&mut [], 1), Err(Refusal::NotJudged));
    assert_eq!(rt; sheet.report(&mut [], 1), Err(Refusal::NotJudged));
}

#[test]
fn a_sheet_that_is_not_judged(rt: HostRuntime) {
    let mut sheet = Sheet::new();
    check_not_judged(&rt, &sheet);
    let mut table = [Fact::default(); 0];
    let store = listing(&rt, &mut table, &[]);
    let refused = judge(&sealed(&rt, &[]), &store, &mut sheet, &mut [], &mut []);
    assert_eq!(rt; refused, Err(Refusal::WorkAreasTooSmall));
    check_not_judged(&rt, &sheet);
}

#[test]
fn the_first_fault_counts(rt: HostRuntime) {
    let sheet = standing(&rt, &fork(), &[in_class(4, 0)]);
    for (letter, class, answer) in [
        (16, 64, Err(Refusal::ClassTooHigh)),
        (0, 64, Err(Refusal::ClassTooHigh)),
        (16, 63, Err(Refusal::FeatureTooHigh)),
        (15, 63, Ok(false)),
    ] {
        assert_eq!(rt;
            sheet.member(4, &[0, letter], class),
            answer,
            "{letter} and {class}"
        );
    }
    assert_eq!(rt; sheet.word(&mut [], 1), Err(Refusal::NotClashing));
    assert_eq!(rt; sheet.report(&mut [], 1), Err(Refusal::OutputDoesNotFit));
    let (_, sheet) = judged(&rt, &chain(), &[in_class(0, 0)]);
    assert_eq!(rt; sheet.member(0, &[16], 64), Err(Refusal::NotStanding));
    assert_eq!(rt; sheet.same(0, 0), Err(Refusal::NotStanding));
}
