// Lists of calls at work.
use crate::call::{Answer, Call, Entry};
use crate::running::run;
use book::draft::Draft;
use book::sealed::Book;
use judge::sheet::Sheet;
use judge::verdict::Verdict;
use search::{ClassPair, Found};
use stores::additions::Additions;
use stores::row::RowStore;
use stores::told::Told;
use terms::fact::Fact;
use terms::kind::{FactKind, RowKind};
use terms::refusal::Refusal;
use terms::row::Row;

fn value(left: u8, feature: u8, right: u8) -> Row {
    Row {
        kind: RowKind::Value as u8,
        left,
        right,
        count: 1,
        features: [feature, 0, 0, 0],
    }
}

fn in_class(part: u8, class: u8) -> Fact {
    Fact {
        kind: FactKind::InClass as u8,
        first: part,
        second: class,
        third: 0,
    }
}

// The values by feature 0 of classes 0 and 1 are in two classes that exclude each other.
fn fork_book() -> Book {
    let exclusion = Row {
        kind: RowKind::Exclusion as u8,
        left: 2,
        right: 3,
        ..Row::default()
    };
    let mut draft = Draft::new();
    for row in [value(0, 0, 2), value(1, 0, 3), exclusion] {
        let _ = draft.rule(row);
    }
    draft.seal()
}

#[test]
fn a_book_that_stands_and_then_clashes(rt: HostRuntime) {
    let book = fork_book();
    let mut rows = [Fact::default(); 4];
    let mut store = Additions::over(RowStore::open(&mut rows));
    let mut sheet = Sheet::new();
    let mut pairs = [ClassPair::default(); 4096];
    let mut parts = [0; 256];
    let mut entries = [
        Entry::new(Call::Same { p: 1, q: 2 }),
        Entry::new(Call::Tell {
            fact: in_class(4, 0),
        }),
        Entry::new(Call::Judge {
            pairs: &mut pairs,
            parts: &mut parts,
        }),
        Entry::new(Call::Member {
            part: 4,
            word: &[0],
            class: 2,
        }),
        Entry::new(Call::Same { p: 4, q: 5 }),
    ];
    run(&book, &mut store, &mut sheet, &mut entries);
    assert_eq!(rt;
        entries[0].answer,
        Some(Answer::Same(Err(Refusal::NotJudged)))
    );
    assert_eq!(rt; entries[1].answer, Some(Answer::Tell(Ok(Told::Added))));
    assert_eq!(rt; entries[2].answer, Some(Answer::Judge(Ok(Verdict::Stands))));
    assert_eq!(rt; entries[3].answer, Some(Answer::Member(Ok(true))));
    assert_eq!(rt; entries[4].answer, Some(Answer::Same(Ok(false))));
    let mut out = [9; 2];
    let mut entries = [
        Entry::new(Call::Tell {
            fact: in_class(4, 1),
        }),
        Entry::new(Call::Judge {
            pairs: &mut [],
            parts: &mut [],
        }),
        Entry::new(Call::Member {
            part: 4,
            word: &[0],
            class: 3,
        }),
        Entry::new(Call::Judge {
            pairs: &mut pairs,
            parts: &mut parts,
        }),
        Entry::new(Call::Word {
            place: 1,
            out: &mut out,
        }),
    ];
    run(&book, &mut store, &mut sheet, &mut entries);
    let clash = Found {
        part: 4,
        row: 2,
        length: 1,
    };
    assert_eq!(rt; entries[0].answer, Some(Answer::Tell(Ok(Told::Added))));
    assert_eq!(rt;
        entries[1].answer,
        Some(Answer::Judge(Err(Refusal::WorkAreasTooSmall)))
    );
    assert_eq!(rt; entries[2].answer, Some(Answer::Member(Ok(false))));
    assert_eq!(rt;
        entries[3].answer,
        Some(Answer::Judge(Ok(Verdict::Clash(clash))))
    );
    assert_eq!(rt; entries[4].answer, Some(Answer::Word(Ok(1))));
    assert_eq!(rt; out, [9, 0]);
}
