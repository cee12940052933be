// Completing, from a store's facts to records that hold all that follows from them.
ghost use Rattle.std.specs.Prelude.{◌≡◌, true, false, List, [], ◌∷◌, length, nat_le, IfOk, OnErr};
ghost use Rattle.queue.specs.Lines.{waiting};
ghost use Rattle.terms.specs.Refusals.{ask, asked, done};
ghost use Rattle.terms.specs.Facts.{Claim, claims_of};
ghost use Rattle.completion.specs.Records.{Kept, Led, Right};
ghost use Rattle.completion.specs.PartSets.{Lists};
ghost use Rattle.completion.specs.Growths.{Went};
ghost use Rattle.completion.specs.Closed.{Meant, Settled, rules_in};
ghost use Rattle.completion.specs.Whole.{Complete};

use crate::growth::Growth;
use crate::index::Index;
use crate::record::PartRecord;
use crate::rules::Rules;
use book::sealed::Book;
use stores::store::Store;
use terms::refusal::Refusal;

impl<'a> Growth<'a> {
    // Looks at every part and every key once; the index is to list the parts as they are.
    fn pass(&mut self, rules: &Rules, index: &Index)
        ensures went { Went self.old self.new }
        ensures closed { self.new.waiting.grown ≡ false → Lists self.new.parts index.now → Settled rules.now self.new.parts }
        ensures right { (F : List Claim) → Meant rules.now → Right (rules_in rules.now) F self.old.parts → Right (rules_in rules.now) F self.new.parts }
    {
        for part in 0..=255u8 {
            self.visit(rules, part);
        }
        self.keys(rules, index);
    }

    // Looks for what the keys that are due add; where that is nothing, at all.
    fn seek(&mut self, rules: &Rules, index: &mut Index)
        ensures went { Went self.old self.new }
        ensures closed { self.new.waiting.grown ≡ false → Settled rules.now self.new.parts }
        ensures right { (F : List Claim) → Meant rules.now → Right (rules_in rules.now) F self.old.parts → Right (rules_in rules.now) F self.new.parts }
    {
        index.list(&self.parts);
        self.sweep(rules, index);
        if !self.waiting.grown {
            self.pass(rules, index);
        }
    }

    // Adds all that the rules say: the parts that wait are looked at first, and a pass over all that adds nothing is the last.
    fn run(&mut self, rules: &Rules, index: &mut Index)
        requires { self.old.waiting.grown ≡ true }
        ensures kept { Kept self.old.parts self.new.parts }
        ensures settled { Settled rules.now self.new.parts }
        ensures right { (F : List Claim) → Meant rules.now → Right (rules_in rules.now) F self.old.parts → Right (rules_in rules.now) F self.new.parts }
    {
        while self.waiting.grown {
            self.settle(rules);
            self.waiting.grown = false;
            self.seek(rules, index);
        }
    }

    // The record of each part's leader, as its own.
    fn records(&self) -> [PartRecord; 256]
        ensures { Led self.now.parts result }
    {
        self.parts.map(|part| self.parts[usize::from(part.leader)])
    }
}

// The completed facts of the book's rules and of all facts of the store; the memory is to hold 256 part numbers.
pub fn complete<S: Store>(
    book: &Book,
    store: &S,
    slots: &mut [u8],
) -> Result<[PartRecord; 256], Refusal>
    requires { S.Store.valid store.now }
    ensures answer { done result ≡ asked (ask 7 (nat_le 256 (length slots.old)) ∷ []) tt }
    ensures whole { IfOk result (λ parts. Complete book.now (claims_of (S.Store.facts store.now)) parts) }
    ensures unchanged { OnErr result (slots.new ≡ slots.old) }
{
    if slots.len() < 256 {
        return Err(Refusal::WorkAreasTooSmall);
    }
    let rules = Rules::of(book);
    let mut growth = Growth::new(slots);
    growth.tell_all(store);
    growth.run(&rules, &mut Index::new());
    Ok(growth.records())
}
