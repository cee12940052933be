// Reads rule records from standard input and prints what the rules imply of the classes.
#![tactic(auto)]

use listing::{book_lines, refusal_line};
use possible::impossible;
use records::reading::read_draft;
use std::io::Read;
use std::process::ExitCode;

// Prints the lines of the book, or why a record is refused; the status says whether the book was accepted.
fn main(rt: HostRuntime) -> anyhow::Result<ExitCode> {
    let heap = rt.alloc();
    let mut input = Vec::new(heap);
    rt.stdin().take(32768).read_to_end(&mut input)?;
    match read_draft(&input) {
        Ok(draft) => {
            let book = draft.seal();
            rt.print(book_lines(heap, &book, impossible(&book))?)?;
            Ok(ExitCode::SUCCESS)
        }
        Err(fault) => {
            rt.print(refusal_line(heap, fault)?)?;
            Ok(ExitCode::FAILURE)
        }
    }
}
