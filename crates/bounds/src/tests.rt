// Rows, drafts and books at their bounds.
use crate::searches::example_book;
use book::draft::Draft;
use terms::refusal::Refusal;
use terms::row::Row;

// Any numbers, also kinds that are not known.
fn row(kind: u8, left: u8, right: u8, count: u8, features: [u8; 4]) -> Row {
    Row {
        kind,
        left,
        right,
        count,
        features,
    }
}

#[test]
fn kinds_and_classes(rt: HostRuntime) {
    assert_eq!(rt; row(1, 63, 63, 0, [0; 4]).check(), Ok(()));
    assert_eq!(rt;
        row(1, 64, 0, 0, [0; 4]).check(),
        Err(Refusal::ClassTooHigh)
    );
    assert_eq!(rt;
        row(2, 0, 64, 0, [0; 4]).check(),
        Err(Refusal::ClassTooHigh)
    );
    assert_eq!(rt; row(0, 0, 0, 0, [0; 4]).check(), Err(Refusal::UnknownKind));
    assert_eq!(rt;
        row(6, 64, 64, 9, [16; 4]).check(),
        Err(Refusal::UnknownKind),
        "the first no counts"
    );
}

#[test]
fn features_and_counts(rt: HostRuntime) {
    assert_eq!(rt; row(3, 0, 1, 1, [15, 0, 0, 0]).check(), Ok(()));
    assert_eq!(rt;
        row(3, 0, 1, 1, [16, 0, 0, 0]).check(),
        Err(Refusal::FeatureTooHigh)
    );
    assert_eq!(rt;
        row(4, 64, 1, 1, [16, 0, 0, 0]).check(),
        Err(Refusal::ClassTooHigh)
    );
    assert_eq!(rt;
        row(1, 0, 1, 0, [16, 0, 0, 0]).check(),
        Err(Refusal::WrongFields)
    );
    assert_eq!(rt; row(3, 0, 1, 0, [0; 4]).check(), Err(Refusal::WrongFields));
    assert_eq!(rt;
        row(4, 0, 1, 1, [0, 1, 0, 0]).check(),
        Err(Refusal::WrongFields)
    );
}

#[test]
fn keys(rt: HostRuntime) {
    assert_eq!(rt; row(5, 0, 1, 4, [3, 2, 1, 0]).check(), Ok(()));
    assert_eq!(rt;
        row(5, 0, 1, 5, [3, 2, 1, 0]).check(),
        Err(Refusal::WrongFields)
    );
    assert_eq!(rt; row(5, 0, 1, 0, [0; 4]).check(), Err(Refusal::WrongFields));
    assert_eq!(rt;
        row(5, 0, 1, 2, [7, 7, 0, 0]).check(),
        Err(Refusal::WrongFields)
    );
    assert_eq!(rt;
        row(5, 0, 1, 255, [0, 1, 2, 3]).check(),
        Err(Refusal::WrongFields)
    );
    assert_eq!(rt;
        row(5, 0, 1, 255, [0, 1, 2, 16]).check(),
        Err(Refusal::FeatureTooHigh)
    );
}

#[test]
fn a_draft_holds_256_rows(rt: HostRuntime) {
    let mut draft = Draft::new();
    for n in 0..=255u8 {
        assert_eq!(rt; draft.rule(row(1, 0, 1, 0, [0; 4])), Ok(n));
    }
    assert_eq!(rt;
        draft.rule(row(1, 0, 1, 0, [0; 4])),
        Err(Refusal::DraftFull)
    );
    assert_eq!(rt;
        draft.rule(row(1, 64, 1, 0, [0; 4])),
        Err(Refusal::ClassTooHigh)
    );
    assert_eq!(rt; draft.seal().rows().len(), 256);
}

#[test]
fn the_example_implies_more_than_it_says(rt: HostRuntime) {
    let book = example_book();
    assert_eq!(rt; book.rows().len(), 4);
    assert!(rt; book.within(0).has(3) && !book.within(0).has(1) && !book.within(1).has(3));
    assert!(rt; book.leads(0, 0).has(1) && book.leads(0, 0).has(2) && !book.leads(0, 1).has(1));
    assert!(rt;
        book.within(64).is_empty() && book.leads(0, 16).is_empty() && book.leads(64, 0).is_empty()
    );
}
