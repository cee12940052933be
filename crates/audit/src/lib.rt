// The audit of a file: its records read, its book judged, and the report written.
#![tactic(auto)]

ghost use Rattle.std.specs.Prelude.{◌≡◌, ◌≤◌, ◌↔◌, ℕ, List, length, take, codes, IfOk, IsOk};
ghost use Rattle.audit.specs.Audits.{Audited, BookReported, Kept, LastLine, RefusalWritten, Reported, ShortestClash, fault_line};
ghost use Rattle.records.specs.Books.{PartBook, facts_of};
ghost use Rattle.records.specs.Faults.{refused};
ghost use Rattle.records.specs.Reading.{Accepted, LayoutLaw, RefusedAt, all_groups, file_read};
ghost use Rattle.book.specs.Books.{rows_of};
ghost use Rattle.judge.specs.Verdicts.{clash_line};

use arrayvec::ArrayString;
use book::sealed::Book;
use itoa::Buffer;
use judge::judging::judge;
use judge::sheet::Sheet;
use judge::writing::write_at;
use records::Fault;
use records::reading::read_book;
use search::ClassPair;
use stores::store::Store;
use terms::refusal::Refusal;

// "refused N record K", and the end of the line.
fn fault_line(fault: Fault) -> ArrayString<64>
    ensures { result.bytes ≡ fault_line (refused fault) }
{
    let mut line = ArrayString::new();
    line.push_str("refused ");
    line.push_str(Buffer::new().format(fault.refusal.number()));
    line.push_str(" record ");
    line.push_str(Buffer::new().format(fault.index));
    line.push_str("\n");
    line
}

// Judges the book with the facts of the store, on a sheet and with work areas of its own (docs/DECISIONS.md), and writes the
// report.
fn report_book<S: Store>(book: &Book, store: &S, out: &mut [u8]) -> Result<usize, Refusal>
    requires { S.Store.valid store.now }
    ensures { BookReported (rows_of book.now) (S.Store.facts store.now) out.old out.new result }
{
    let mut sheet = Sheet::new();
    let mut pairs = [ClassPair::default(); 4096];
    let mut parts = [0; 256];
    judge(book, store, &mut sheet, &mut pairs, &mut parts)?;
    sheet.report(out, 0)
}

// Reads the records of the input, judges the book that they say, and writes the report over the front of the output; of an
// input that is refused it writes which record is refused, and why. Answers how many bytes it wrote. Only an output that is
// too short refuses the call itself, and then nothing is written.
pub fn audit(input: &[u8], out: &mut [u8]) -> Result<usize, Refusal>
    ensures audited { Audited (file_read all_groups input.now) out.old out.new result }
    ensures law { LayoutLaw all_groups input.now }
    ensures accepted { (b : PartBook) → Accepted all_groups input.now b → Reported b.rows (facts_of b) out.old out.new result }
    ensures refused { (n k : ℕ) → RefusedAt all_groups input.now n k → RefusalWritten n k out.old out.new result }
    ensures bound { IfOk result (λ n. n ≤ length out.new) }
    ensures room { 8192 ≤ length out.old → IsOk result }
    ensures stands { IfOk result (λ n. LastLine (take n out.new) (codes "stands") ↔ Kept input.now) }
    ensures clash { IfOk result (λ n. (p i : ℕ) (w : List ℕ) → LastLine (take n out.new) (clash_line p i w) → ShortestClash input.now p w i) }
{
    match read_book(input) {
        Ok(opened) => report_book(&opened.book, &opened.store, out),
        Err(fault) => write_at(out, 0, fault_line(fault).as_bytes()),
    }
}
