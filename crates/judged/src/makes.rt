// Judging over stores of other makes, and over additions on them.
use crate::making::{chain, check_word, clash, in_class, judge_over, sealed, value_at};
use book::sealed::Book;
use cabinet::Cabinet;
use image::store::ImageStore;
use judge::sheet::Sheet;
use std::process::Abort;
use stores::additions::Additions;
use stores::store::Store;
use stores::told::Told;

// A store that lists just that part 0 is in class 0, judged by the chain.
fn check_lower<S: Store>(rt: &impl Abort, book: &Book, store: &S)
    requires { S.Store.valid store.now }
{
    let mut sheet = Sheet::new();
    assert_eq!(rt; judge_over(book, store, &mut sheet), clash(0, 2, 2));
    check_word(rt, &sheet, &[0, 1]);
}

// Such a store, additions on it before and after a value is told, and the store again.
fn check_pile<S: Store + Drop>(rt: &impl Abort, store: S)
    requires { S.Store.valid store }
{
    let book = sealed(rt, &chain());
    check_lower(rt, &book, &store);
    let mut pile = Additions::over(store);
    check_lower(rt, &book, &pile);
    assert_eq!(rt; pile.tell(value_at(0, 0, 5)), Ok(Told::Added));
    let mut sheet = Sheet::new();
    assert_eq!(rt; judge_over(&book, &pile, &mut sheet), clash(5, 2, 1));
    check_word(rt, &sheet, &[1]);
    check_lower(rt, &book, &pile.into_below());
}

#[test]
fn a_store_of_the_buyers_own_make(rt: HostRuntime) {
    let mut log = Cabinet::open(7);
    assert_eq!(rt; log.tell(in_class(0, 0)), Ok(Told::Added));
    check_pile(&rt, log);
}

#[test]
fn an_image(rt: HostRuntime) {
    let record = [0x50, 0x46, 1, 0, 0, 0];
    check_pile(&rt, ImageStore::open(&record));
}

#[test]
fn additions_on_additions(rt: HostRuntime) {
    let mut pile = Additions::over(Cabinet::open(7));
    assert_eq!(rt; pile.tell(in_class(0, 0)), Ok(Told::Added));
    check_pile(&rt, pile);
}
