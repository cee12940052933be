// Rows, facts, and books judged with them.
use book::draft::Draft;
use book::sealed::Book;
use judge::judging::judge;
use judge::sheet::Sheet;
use judge::verdict::Verdict;
use search::{ClassPair, Found};
use std::process::Abort;
use stores::row::RowStore;
use stores::store::Store;
use stores::told::Told;
use terms::fact::Fact;
use terms::kind::{FactKind, RowKind};
use terms::refusal::Refusal;
use terms::row::Row;

pub(crate) fn subclass(left: u8, right: u8) -> Row {
    Row {
        kind: RowKind::Subclass as u8,
        left,
        right,
        ..Row::default()
    }
}

pub(crate) fn exclusion(left: u8, right: u8) -> Row {
    Row {
        kind: RowKind::Exclusion as u8,
        left,
        right,
        ..Row::default()
    }
}

fn by_feature(kind: RowKind, left: u8, feature: u8, right: u8) -> Row {
    Row {
        kind: kind as u8,
        left,
        right,
        count: 1,
        features: [feature, 0, 0, 0],
    }
}

// The value by the feature of what is in the left class is in the right one.
pub(crate) fn value(left: u8, feature: u8, right: u8) -> Row {
    by_feature(RowKind::Value, left, feature, right)
}

// What has a value by the feature in the left class is in the right one.
pub(crate) fn pullback(left: u8, feature: u8, right: u8) -> Row {
    by_feature(RowKind::Pullback, left, feature, right)
}

pub(crate) fn key(left: u8, feature: u8, right: u8) -> Row {
    by_feature(RowKind::Key, left, feature, right)
}

pub(crate) fn in_class(part: u8, class: u8) -> Fact {
    Fact {
        kind: FactKind::InClass as u8,
        first: part,
        second: class,
        third: 0,
    }
}

pub(crate) fn value_at(part: u8, feature: u8, value: u8) -> Fact {
    Fact {
        kind: FactKind::ValueAt as u8,
        first: part,
        second: feature,
        third: value,
    }
}

pub(crate) fn one_object(p: u8, q: u8) -> Fact {
    Fact {
        kind: FactKind::OneObject as u8,
        first: p,
        second: q,
        third: 0,
    }
}

// The value by feature 0 of class 0 is in 1, that by feature 1 of class 1 in 2, and nothing is in class 2.
pub(crate) fn chain() -> [Row; 3] {
    [value(0, 0, 1), value(1, 1, 2), exclusion(2, 2)]
}

// The value by feature 0 of class 0 is in 2, that of class 1 in 3, and nothing is in both.
pub(crate) fn fork() -> [Row; 3] {
    [value(0, 0, 2), value(1, 0, 3), exclusion(2, 3)]
}

pub(crate) fn sealed(rt: &impl Abort, rows: &[Row]) -> Book {
    let mut draft = Draft::new();
    for row in rows {
        assert!(rt; draft.rule(*row).is_ok());
    }
    draft.seal()
}

// A store over the table that lists the facts.
pub(crate) fn listing<'a>(rt: &impl Abort, table: &'a mut [Fact], facts: &[Fact]) -> RowStore<'a> {
    let mut store = RowStore::open(table);
    for fact in facts {
        assert_eq!(rt; store.tell(*fact), Ok(Told::Added));
    }
    store
}

// Judges in work areas that are just large enough, and full of what was there before.
pub(crate) fn judge_over<S: Store>(
    book: &Book,
    store: &S,
    sheet: &mut Sheet,
) -> Result<Verdict, Refusal>
    requires { S.Store.valid store.now }
{
    let mut pairs = [ClassPair {
        left: 9,
        right: 200,
    }; 4096];
    judge(book, store, sheet, &mut pairs, &mut [77; 256])
}

// The verdict of the rows with at most 16 facts, and its sheet.
pub(crate) fn judged(
    rt: &impl Abort,
    rows: &[Row],
    facts: &[Fact],
) -> (Result<Verdict, Refusal>, Sheet) {
    let mut table = [Fact::default(); 16];
    let store = listing(rt, &mut table, facts);
    let mut sheet = Sheet::new();
    let verdict = judge_over(&sealed(rt, rows), &store, &mut sheet);
    (verdict, sheet)
}

// The sheet of rows that stand with the facts.
pub(crate) fn standing(rt: &impl Abort, rows: &[Row], facts: &[Fact]) -> Sheet {
    let (verdict, sheet) = judged(rt, rows, facts);
    assert_eq!(rt; verdict, Ok(Verdict::Stands));
    sheet
}

pub(crate) fn clash(part: u8, row: u8, length: u16) -> Result<Verdict, Refusal> {
    Ok(Verdict::Clash(Found { part, row, length }))
}

// The sheet writes just these letters.
pub(crate) fn check_word(rt: &impl Abort, sheet: &Sheet, letters: &[u8]) {
    let mut out = [99; 8];
    assert_eq!(rt; sheet.word(&mut out, 0), Ok(letters.len()));
    assert!(rt; out.starts_with(letters));
}
