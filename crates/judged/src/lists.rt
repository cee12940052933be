// Lists of calls over a store of the buyer's own make, and over additions on it.
use crate::making::{chain, clash, in_class, sealed};
use cabinet::Cabinet;
use judge::sheet::Sheet;
use runs::call::{Answer, Call, Entry};
use runs::running::run;
use search::ClassPair;
use std::process::Abort;
use stores::additions::Additions;
use stores::store::Store;
use stores::told::Told;

// Part 0 comes into class 0, and the chain then clashes along two letters.
fn check_list<S: Store>(rt: &impl Abort, store: &mut S)
    requires { S.Store.valid store.old }
{
    let book = sealed(rt, &chain());
    let mut sheet = Sheet::new();
    let mut pairs = [ClassPair::default(); 4096];
    let mut parts = [0; 256];
    let mut out = [9; 3];
    let mut entries = [
        Entry::new(Call::Tell {
            fact: in_class(0, 0),
        }),
        Entry::new(Call::Judge {
            pairs: &mut pairs,
            parts: &mut parts,
        }),
        Entry::new(Call::Word {
            place: 1,
            out: &mut out,
        }),
    ];
    run(&book, store, &mut sheet, &mut entries);
    assert_eq!(rt; entries[0].answer, Some(Answer::Tell(Ok(Told::Added))));
    assert_eq!(rt; entries[1].answer, Some(Answer::Judge(clash(0, 2, 2))));
    assert_eq!(rt; entries[2].answer, Some(Answer::Word(Ok(2))));
    assert_eq!(rt; out, [9, 0, 1]);
}

#[test]
fn a_list_over_a_store_of_the_buyers_own_make(rt: HostRuntime) {
    check_list(&rt, &mut Cabinet::open(7));
    check_list(&rt, &mut Additions::over(Cabinet::open(7)));
}
