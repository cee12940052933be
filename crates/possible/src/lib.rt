// Whether a class can have an object at all.
#![tactic(auto)]

ghost use Rattle.std.specs.Prelude.{◌≡◌, ℕ, ◌<◌, true, ◌↔◌, length, IfOk, OnErr};
ghost use Rattle.terms.specs.Refusals.{done, asked};
ghost use Rattle.terms.specs.Worlds.{rules_of};
ghost use Rattle.terms.specs.Verdicts.{Possible};
ghost use Rattle.classes.specs.Sets.{has};
ghost use Rattle.book.specs.Books.{rows_of};
ghost use Rattle.possible.specs.Questions.{possible_questions, Lone};

use book::sealed::Book;
use classes::ClassSet;
use search::{ClassPair, search};
use terms::refusal::Refusal;

// The classes of part 0, and of no other part.
fn lone_part(classes: ClassSet) -> [ClassSet; 256]
    ensures { Lone classes result }
{
    let mut parts = [ClassSet::NONE; 256];
    parts[0] = classes;
    parts
}

// Says whether some world keeps all rules of the book and has an object in the class.
// Each work area is lent by itself, as all memory here (a form that the project keeps: docs/DECISIONS.md); a struct of both
// would be made and taken apart at each call, and one of the two is only measured.
pub fn possible(
    book: &Book,
    class: u8,
    pairs: &mut [ClassPair],
    parts: &mut [u8],
) -> Result<bool, Refusal>
    ensures answer { done result ≡ asked (possible_questions class (length pairs.old) (length parts.old)) tt }
    ensures truth { IfOk result (λ v. (v ≡ true) ↔ Possible (rules_of (rows_of book.now)) class) }
    ensures unchanged { OnErr result ((pairs.new ≡ pairs.old) × (parts.new ≡ parts.old)) }
{
    if class >= 64 {
        return Err(Refusal::ClassTooHigh);
    }
    if pairs.len() < 4096 || parts.len() < 256 {
        return Err(Refusal::WorkAreasTooSmall);
    }
    let mut letters = [0; 2079];
    let found = search(&lone_part(book.within(class)), book, pairs, &mut letters)?;
    Ok(found.is_none())
}

// Work areas as large as `possible` asks.
#[derive(Drop)]
struct WorkAreas {
    pairs: [ClassPair; 4096],
    parts: [u8; 256],
    ghost enough_pairs: { length pairs ≡ 4096 },
    ghost enough_parts: { length parts ≡ 256 },
}

impl WorkAreas {
    fn new() -> WorkAreas {
        WorkAreas {
            pairs: [ClassPair::default(); 4096],
            parts: [0; 256],
        }
    }

    // Says whether no world that keeps all rules has an object in the class.
    // That it is below 64 is asked: a type of its own would be made from the loop's number, and turned back into one, at this one call.
    fn is_impossible(&mut self, book: &Book, class: u8) -> bool
        requires { class < 64 }
        ensures { (result ≡ true) ↔ (Possible (rules_of (rows_of book.now)) class → ⊥) }
    {
        possible(book, class, &mut self.pairs, &mut self.parts) == Ok(false)
    }
}

// The classes that no world which keeps all rules of the book has an object in.
pub fn impossible(book: &Book) -> ClassSet
    ensures { (A : ℕ) → (has result A ≡ true) ↔ ((A < 64) × (Possible (rules_of (rows_of book.now)) A → ⊥)) }
{
    let mut areas = WorkAreas::new();
    let mut found = ClassSet::NONE;
    for class in 0..64u8 {
        if areas.is_impossible(book, class) {
            found.insert(class);
        }
    }
    found
}
