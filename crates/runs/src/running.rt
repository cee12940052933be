// One call, and any list of calls, on a book, a store and a sheet.
ghost use Rattle.runs.specs.Accounts.{Performed, Account};
ghost use Rattle.runs.specs.Runs.{RunsKeepTheLaw};

use crate::call::{Answer, Call, Entry};
use book::sealed::Book;
use judge::judging::judge;
use judge::sheet::Sheet;
use stores::store::Store;

// Makes the call, and answers what it answers.
pub fn perform<S: Store>(book: &Book, store: &mut S, sheet: &mut Sheet, call: &mut Call) -> Answer
    requires { S.Store.valid store.old }
    ensures stays { S.Store.valid store.new }
    ensures performed { Performed S.Store.facts S.Store.room book.now store.old sheet.old call.old result call.new store.new sheet.new }
{
    match call {
        Call::Tell { fact } => Answer::Tell(store.tell(*fact)),
        Call::Judge { pairs, parts } => Answer::Judge(judge(book, store, sheet, pairs, parts)),
        Call::Member { part, word, class } => Answer::Member(sheet.member(*part, word, *class)),
        Call::Same { p, q } => Answer::Same(sheet.same(*p, *q)),
        Call::Word { place, out } => Answer::Word(sheet.word(out, *place)),
    }
}

// Makes the calls of all entries in their order, each on what the one before it left, and puts its answer into its entry.
pub fn run<S: Store>(book: &Book, store: &mut S, sheet: &mut Sheet, entries: &mut [Entry])
    requires { S.Store.valid store.old }
    ensures stays { S.Store.valid store.new }
    ensures account { Account S.Store.facts S.Store.room book.now store.old sheet.old entries.old entries.new store.new sheet.new }
    ensures every { RunsKeepTheLaw S.Store.facts S.Store.room book.now }
{
    for entry in entries.iter_mut() {
        entry.answer = Some(perform(book, store, sheet, &mut entry.call));
    }
}
