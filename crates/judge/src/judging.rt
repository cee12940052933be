// Judging: from a book and the facts of a store to a verdict, and the sheet filled.
ghost use Rattle.std.specs.Prelude.{◌≡◌, ℕ, ◌<◌, ◌↔◌, List, length, IfOk, OnErr, Ok};
ghost use Rattle.terms.specs.Worlds.{World, rules_of};
ghost use Rattle.terms.specs.Facts.{KeepsBook, claims_of};
ghost use Rattle.book.specs.Books.{rows_of};
ghost use Rattle.book.specs.Tables.{set_at};
ghost use Rattle.completion.specs.Records.{part_at};
ghost use Rattle.judge.specs.declared.verdict.Verdict.TheVariants.{Stands};
ghost use Rattle.judge.specs.Judging.{Judges};

use crate::sheet::{Judgement, Sheet};
use crate::verdict::Verdict;
use book::sealed::Book;
use classes::ClassSet;
use completion::complete::complete;
use completion::record::PartRecord;
use search::{ClassPair, search};
use stores::store::Store;
use terms::refusal::Refusal;

// The classes of each part.
fn classes_of(parts: &[PartRecord; 256]) -> [ClassSet; 256]
    ensures { (p : ℕ) → p < 256 → set_at result p ≡ (part_at parts.now p).classes }
{
    parts.map(|part| part.classes)
}

// Judges the book with all facts of the store: reads and completes them, looks for a shortest clash, fills the sheet and
// answers the verdict. Refused where the work areas are too small, and nothing changes then.
pub fn judge<S: Store>(
    book: &Book,
    store: &S,
    sheet: &mut Sheet,
    pairs: &mut [ClassPair],
    parts: &mut [u8],
) -> Result<Verdict, Refusal>
    requires { S.Store.valid store.now }
    ensures judges { Judges book.now (S.Store.facts store.now) sheet.old (length pairs.old) (length parts.old) result sheet.new }
    ensures worlds { IfOk result (λ v. (v ≡ Stands) ↔ ∥ ((W : World) × KeepsBook (rules_of (rows_of book.now)) (claims_of (S.Store.facts store.now)) W) ∥₁) }
    ensures unchanged { OnErr result ((pairs.new ≡ pairs.old) × (parts.new ≡ parts.old)) }
{
    if pairs.len() < 4096 || parts.len() < 256 {
        return Err(Refusal::WorkAreasTooSmall);
    }
    let records = complete(book, store, parts)?;
    let mut letters = [0; 2079];
    let found = search(&classes_of(&records), book, pairs, &mut letters)?;
    let verdict = match found {
        None => Verdict::Stands,
        Some(clash) => Verdict::Clash(clash),
    };
    sheet.judgement = Some(Judgement {
        parts: records,
        steps: *book.steps(),
        rows: book.rows().len(),
        facts: store.count(),
        verdict,
        letters,
    });
    Ok(verdict)
}
