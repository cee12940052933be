// A call of a script, made and answered by a line.
ghost use Rattle.std.specs.Prelude.{◌≡◌, IfOk, string_bytes};
ghost use Rattle.stores.specs.Piles.{pile_facts, pile_room};
ghost use Rattle.image.specs.Images.{image_facts};
ghost use Rattle.runs.specs.Accounts.{Performed};
ghost use Rattle.script.specs.Lines.{judge, meant, word};
ghost use Rattle.bookask.specs.Replies.{Replied, letters_words, line_of};

use judge::sheet::Sheet;
use judge::verdict::Verdict;
use records::opened::Opened;
use runs::call::{Answer, Call};
use runs::running::perform;
use script::ask::Ask;
use search::ClassPair;
use std::alloc::{AllocError, Global};

// The letters as numbers, one blank between two.
fn letters_line(heap: Global, letters: &[u8]) -> Result<String, AllocError>
    ensures { IfOk result (λ line. string_bytes line ≡ letters_words letters.now) }
{
    let Some((first, rest)) = letters.split_first() else {
        return Ok(String::new(heap));
    };
    let mut line = format!(in heap; "{first}")?;
    for letter in rest {
        line.push_str(&format!(in heap; " {letter}")?)?;
    }
    Ok(line)
}

// The line that says the answer; a word call has written the letters.
fn line_of(heap: Global, answer: Answer, letters: &[u8]) -> Result<String, AllocError>
    ensures { IfOk result (λ line. string_bytes line ≡ line_of answer letters.now) }
{
    match answer {
        Answer::Tell(Ok(told)) => format!(in heap; "{told}"),
        Answer::Judge(Ok(Verdict::Stands)) => format!(in heap; "stands"),
        Answer::Judge(Ok(Verdict::Clash(clash))) => format!(in heap;
            "clash part {} row {} length {}",
            clash.part, clash.row, clash.length
        ),
        Answer::Member(Ok(true)) | Answer::Same(Ok(true)) => format!(in heap; "yes"),
        Answer::Member(Ok(false)) | Answer::Same(Ok(false)) => format!(in heap; "no"),
        Answer::Word(Ok(length)) => letters_line(heap, letters.get(..length).unwrap_or(letters)),
        Answer::Tell(Err(refusal))
        | Answer::Judge(Err(refusal))
        | Answer::Member(Err(refusal))
        | Answer::Same(Err(refusal))
        | Answer::Word(Err(refusal)) => format!(in heap; "{refusal}"),
    }
}

// Makes the call on the book, its store and the sheet.
fn made(opened: &mut Opened, sheet: &mut Sheet, call: &mut Call) -> Answer
    ensures book { opened.new.book ≡ opened.old.book }
    ensures performed { Performed (pile_facts image_facts) (pile_room image_facts) opened.old.book opened.old.store sheet.old call.old result call.new opened.new.store sheet.new }
{
    perform(&opened.book, &mut opened.store, sheet, call)
}

// Judges, with work areas that are just large enough, and answers the line.
fn judge_line(heap: Global, opened: &mut Opened, sheet: &mut Sheet) -> Result<String, AllocError>
    ensures { Replied opened.old sheet.old judge result opened.new sheet.new }
{
    let mut pairs = [ClassPair::default(); 4096];
    let mut parts = [0; 256];
    let mut call = Call::Judge {
        pairs: &mut pairs,
        parts: &mut parts,
    };
    let answer = made(opened, sheet, &mut call);
    line_of(heap, answer, &[])
}

// Asks for the letters of the clash, with a buffer for the longest word, and answers the line.
fn word_line(heap: Global, opened: &mut Opened, sheet: &mut Sheet) -> Result<String, AllocError>
    ensures { Replied opened.old sheet.old word result opened.new sheet.new }
{
    let mut letters = [0; 2079];
    let mut call = Call::Word {
        place: 0,
        out: &mut letters,
    };
    let answer = made(opened, sheet, &mut call);
    let Call::Word { out, .. } = call else {
        unreachable!()
    };
    line_of(heap, answer, out)
}

// Makes the call that is asked for, and answers the line.
pub fn reply(
    heap: Global,
    opened: &mut Opened,
    sheet: &mut Sheet,
    ask: &Ask,
) -> Result<String, AllocError>
    ensures { Replied opened.old sheet.old (meant ask.now) result opened.new sheet.new }
{
    match ask {
        Ask::Tell(fact) => {
            let answer = made(opened, sheet, &mut Call::Tell { fact: *fact });
            line_of(heap, answer, &[])
        }
        Ask::Judge => judge_line(heap, opened, sheet),
        Ask::Member { part, word, class } => {
            let mut call = Call::Member {
                part: *part,
                word,
                class: *class,
            };
            let answer = made(opened, sheet, &mut call);
            line_of(heap, answer, &[])
        }
        Ask::Same { p, q } => {
            let answer = made(opened, sheet, &mut Call::Same { p: *p, q: *q });
            line_of(heap, answer, &[])
        }
        Ask::Word => word_line(heap, opened, sheet),
    }
}
