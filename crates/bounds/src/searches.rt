// Possible classes, work areas at their bounds, and long searches.
use book::draft::Draft;
use book::sealed::Book;
use classes::ClassSet;
use possible::possible;
use search::{ClassPair, Found, search};
use terms::example::example;
use terms::kind::RowKind;
use terms::refusal::Refusal;
use terms::row::Row;

fn value(left: u8, feature: u8, right: u8) -> Row {
    Row {
        kind: RowKind::Value as u8,
        left,
        right,
        count: 1,
        features: [feature, 0, 0, 0],
    }
}

fn exclusion(left: u8, right: u8) -> Row {
    Row {
        kind: RowKind::Exclusion as u8,
        left,
        right,
        ..Row::default()
    }
}

// Part 3 in two classes, and no other part in any.
fn in_two(a: u8, b: u8) -> [ClassSet; 256] {
    let mut parts = [ClassSet::NONE; 256];
    parts[3].insert(a);
    parts[3].insert(b);
    parts
}

pub(crate) fn example_book() -> Book {
    let mut draft = Draft::new();
    for row in example() {
        let _ = draft.rule(row);
    }
    draft.seal()
}

#[test]
fn class_0_of_the_example_is_impossible(rt: HostRuntime) {
    let book = example_book();
    let mut pairs = [ClassPair::default(); 4096];
    let mut parts = [0; 256];
    assert_eq!(rt; possible(&book, 0, &mut pairs, &mut parts), Ok(false));
    assert_eq!(rt; possible(&book, 1, &mut pairs, &mut parts), Ok(true));
    assert_eq!(rt; possible(&book, 63, &mut pairs, &mut parts), Ok(true));
    assert_eq!(rt;
        possible(&book, 64, &mut [], &mut []),
        Err(Refusal::ClassTooHigh)
    );
}

#[test]
fn work_areas(rt: HostRuntime) {
    let book = example_book();
    let mut pairs = [ClassPair::default(); 4096];
    let mut parts = [0; 256];
    assert_eq!(rt;
        possible(&book, 1, &mut pairs[0..4095], &mut parts),
        Err(Refusal::WorkAreasTooSmall)
    );
    assert_eq!(rt;
        possible(&book, 1, &mut pairs, &mut parts[0..255]),
        Err(Refusal::WorkAreasTooSmall)
    );
    assert_eq!(rt;
        search(&in_two(0, 1), &book, &mut pairs[0..4095], &mut [0; 2079]),
        Err(Refusal::WorkAreasTooSmall)
    );
}

// Each class from the first on leads to the next over one feature, and the last to the first.
fn add_cycle(draft: &mut Draft, first: u8, last: u8) {
    for c in first..last {
        let _ = draft.rule(value(c, 0, c + 1));
    }
    let _ = draft.rule(value(last, 0, first));
}

// Cycles of 31 and 33 classes, whose last classes exclude each other.
fn two_cycles() -> Book {
    let mut draft = Draft::new();
    add_cycle(&mut draft, 0, 30);
    add_cycle(&mut draft, 31, 63);
    let _ = draft.rule(exclusion(30, 63));
    draft.seal()
}

#[test]
fn a_word_of_1022_letters(rt: HostRuntime) {
    let mut letters = [7; 2079];
    let found = search(
        &in_two(0, 31),
        &two_cycles(),
        &mut [ClassPair::default(); 4096],
        &mut letters,
    );
    let clash = Found {
        part: 3,
        row: 64,
        length: 1022,
    };
    assert_eq!(rt; found, Ok(Some(clash)));
    assert!(rt; letters[0] == 0 && letters[1021] == 0 && letters[1022] == 7);
}

// Two chains of 30 classes whose steps go by changing features, alike in both; their last classes exclude each other.
fn two_chains() -> Book {
    let mut draft = Draft::new();
    for c in 0..29u8 {
        let _ = draft.rule(value(c, c * 7 % 16, c + 1));
        let _ = draft.rule(value(c + 30, c * 7 % 16, c + 31));
    }
    let _ = draft.rule(exclusion(59, 29));
    draft.seal()
}

#[test]
fn every_letter_of_29(rt: HostRuntime) {
    let mut letters = [99; 2079];
    let found = search(
        &in_two(0, 30),
        &two_chains(),
        &mut [ClassPair::default(); 4096],
        &mut letters,
    );
    let clash = Found {
        part: 3,
        row: 58,
        length: 29,
    };
    assert_eq!(rt; found, Ok(Some(clash)));
    for (k, letter) in letters[..29].iter().enumerate() {
        assert_eq!(rt; usize::from(*letter), k * 7 % 16);
    }
}
