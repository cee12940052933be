// Reading a file: its rules alone, or a whole book; and the rule records at the front of any bytes.
ghost use Rattle.std.specs.Prelude.{◌≡◌, [], ◌∷◌, ◌<◌, length, drop, nat_lt, Ok};
ghost use Rattle.terms.specs.Refusals.{ask, asked};
ghost use Rattle.records.specs.Faults.{at_record, numbered_fault, onward};
ghost use Rattle.records.specs.Groups.{end_questions};
ghost use Rattle.records.specs.Opened.{book_answer, draft_answer, said_by};
ghost use Rattle.records.specs.Reading.{LayoutLaw, all_groups, file_read, rules_alone};

use crate::Fault;
use crate::facts::{read_factory, tell_site};
use crate::opened::Opened;
pub use crate::rules::{RuleGroup, read_rules};
use book::draft::Draft;
use layout::Group;
use stores::additions::Additions;
use stores::store::Store;
use terms::refusal::Refusal;

// A file has fewer than 32,768 bytes; a longer one is refused as its record 0.
fn check_length(bytes: &[u8]) -> Result<(), Fault>
    ensures { numbered_fault result ≡ at_record 0 (asked (ask 15 (nat_lt (length bytes.now) 32768) ∷ []) tt) }
{
    if bytes.len() < 32768 {
        return Ok(());
    }
    Err(Fault {
        refusal: Refusal::InputTooLong,
        index: 0,
    })
}

// After the last group, which ends at the given place, nothing may be left; what is left is the record of the given number.
pub fn finish(bytes: &[u8], at: usize, index: usize) -> Result<(), Fault>
    ensures { numbered_fault result ≡ at_record index (asked (end_questions (drop at bytes.now)) tt) }
{
    let left = bytes.len().saturating_sub(at);
    let refusal = match left {
        0 => return Ok(()),
        1 => Refusal::RecordCut,
        _ => Refusal::MarkNotAllowed,
    };
    Err(Fault { refusal, index })
}

// The draft that a file of rule records says, or the first refusal.
pub fn read_draft(bytes: &[u8]) -> Result<Draft, Fault>
    ensures answer { draft_answer result ≡ onward (file_read rules_alone bytes.now) (λ b. Ok b.rows) }
    ensures law { LayoutLaw rules_alone bytes.now }
{
    check_length(bytes)?;
    let rules = read_rules(bytes)?;
    finish(bytes, rules.end, rules.records)?;
    Ok(rules.draft)
}

// The book that a file says, its rules sealed, its factory facts read in place and its site facts told over them; or the
// first refusal.
pub fn read_book(bytes: &[u8]) -> Result<Opened<'_>, Fault>
    ensures answer { book_answer result ≡ onward (file_read all_groups bytes.now) (λ b. Ok (said_by b)) }
    ensures law { LayoutLaw all_groups bytes.now }
{
    check_length(bytes)?;
    let rules = read_rules(bytes)?;
    let facts = &bytes[rules.end..];
    let image = read_factory(facts, rules.records)?;
    let site = &facts[Group::Factory.size() * image.count()..];
    let first = rules.records + image.count();
    let mut store = Additions::over(image);
    let told = tell_site(&mut store, site, first)?;
    finish(site, Group::Site.size() * told, first + told)?;
    Ok(Opened {
        book: rules.draft.seal(),
        store,
    })
}
