// What the rules of a book say of parts.
ghost use Rattle.std.specs.Prelude.{◌≡◌, ℕ, ◌<◌, true, false, ◌↔◌, List, length};
ghost use Rattle.terms.specs.Rows.{lawful};
ghost use Rattle.terms.specs.Worlds.{◌∈◌, Rule, key};
ghost use Rattle.terms.specs.Facts.{Claim};
ghost use Rattle.completion.specs.Records.{Agree, Has, Right, key_features, part_at};
ghost use Rattle.completion.specs.PartSets.{In};
ghost use Rattle.completion.specs.Growths.{Went};

use crate::growth::Growth;
use crate::index::Index;
use crate::part_set::PartSet;
use crate::record::PartRecord;
use book::closing::gather;
use book::links::Links;
use book::sealed::Book;
use classes::ClassSet;
use terms::kind::RowKind;
use terms::row::Row;

// A book, and what its rows say of classes directly.
#[derive(Drop)]
pub struct Rules<'a> {
    pub book: &'a Book,
    pub links: Links,
}

impl<'a> Rules<'a> {
    ghost use Rattle.book.specs.Books.{steps_of};
    ghost use Rattle.book.specs.Sealing.{Gathered, links_by};
    ghost use Rattle.book.specs.Tables.{table_at};
    ghost use Rattle.completion.specs.Closed.{Meant};

    pub(crate) fn of(book: &'a Book) -> Rules<'a>
        ensures book { result.book.now ≡ book.now }
        ensures meant { ∥ Meant result ∥₁ }
    {
        Rules {
            book,
            links: book.links(),
        }
    }

    // The classes that those of the set lie within.
    fn climbed(&self, set: ClassSet) -> ClassSet
        ensures { Gathered (steps_of self.now.book.now).within set result }
    {
        let steps = self.book.steps();
        gather(&steps.within, set)
    }

    // The classes that those of the set lead to by the feature.
    fn led(&self, feature: u8, set: ClassSet) -> ClassSet
        requires { feature < 16 }
        ensures { Gathered (table_at (steps_of self.now.book.now).leads feature) set result }
    {
        let steps = self.book.steps();
        gather(&steps.leads[usize::from(feature)], set)
    }

    // The classes that those of the set are pulled back to along the feature.
    pub(crate) fn pulled(&self, feature: u8, set: ClassSet) -> ClassSet
        requires { feature < 16 }
        ensures { Gathered (links_by self.now.links feature).behind set result }
    {
        let by = self.links.by_feature[usize::from(feature)];
        gather(&by.behind, set)
    }
}

// Are the two parts in the classes of the key, and do they agree on its features?
fn is_keyed(parts: &[PartRecord; 256], row: Row, p: u8, q: u8) -> bool
    requires { lawful row ≡ true }
    ensures { (result ≡ true) ↔ (Has (part_at parts.now p) row.left × Has (part_at parts.now q) row.right × Agree (key_features row) (part_at parts.now p) (part_at parts.now q)) }
{
    let one = &parts[usize::from(p)];
    let other = &parts[usize::from(q)];
    one.classes.has(row.left) && other.classes.has(row.right) && one.agrees(other, row)
}

// The rules are passed beside the records, which change: a struct of both would have to say in each contract that the rules stay.
impl<'a> Growth<'a> {
    ghost use Rattle.completion.specs.Closed.{Meant, Handed, Climbed, Followed, Visited, Keyed, KeyedFrom, KeyedIn, rules_in, row_at, key_rows};

    // A part that is one object with a lower one hands its classes and values over to it.
    pub(crate) fn hand_over(&mut self, part: u8)
        ensures went { Went self.old self.new }
        ensures closed { self.new.waiting.grown ≡ false → Handed self.new.parts part }
        ensures right { (R : List Rule) (F : List Claim) → Right R F self.old.parts → Right R F self.new.parts }
    {
        let record = self.parts[usize::from(part)];
        self.gain(record.leader, record.classes);
        for feature in 0..16u8 {
            if let Some(value) = record.value(feature) {
                let leader = self.leader(part);
                self.value(leader, feature, value);
            }
        }
    }

    // The part is in every class that its classes lie within.
    fn climb(&mut self, rules: &Rules, part: u8)
        ensures went { Went self.old self.new }
        ensures closed { self.new.waiting.grown ≡ false → Climbed rules.now self.new.parts part }
        ensures right { (F : List Claim) → Meant rules.now → Right (rules_in rules.now) F self.old.parts → Right (rules_in rules.now) F self.new.parts }
    {
        let classes = self.parts[usize::from(part)].classes;
        self.gain(part, rules.climbed(classes));
    }

    // The value of the part by the feature is in the classes that the part's lead to, and the part in those that are pulled back.
    pub(crate) fn follow(&mut self, rules: &Rules, part: u8, feature: u8)
        requires { feature < 16 }
        ensures went { Went self.old self.new }
        ensures closed { self.new.waiting.grown ≡ false → Followed rules.now self.new.parts part feature }
        ensures right { (F : List Claim) → Meant rules.now → Right (rules_in rules.now) F self.old.parts → Right (rules_in rules.now) F self.new.parts }
    {
        let record = self.parts[usize::from(part)];
        let Some(value) = record.value(feature) else {
            return;
        };
        self.gain(value, rules.led(feature, record.classes));
        let classes = self.parts[usize::from(value)].classes;
        self.gain(part, rules.pulled(feature, classes));
    }

    // Adds what the rules but the keys say of a part and its values.
    pub(crate) fn visit(&mut self, rules: &Rules, part: u8)
        ensures went { Went self.old self.new }
        ensures closed { self.new.waiting.grown ≡ false → Visited rules.now self.new.parts part }
        ensures right { (F : List Claim) → Meant rules.now → Right (rules_in rules.now) F self.old.parts → Right (rules_in rules.now) F self.new.parts }
    {
        self.hand_over(part);
        self.climb(rules, part);
        for feature in 0..16u8 {
            self.follow(rules, part, feature);
        }
    }

    // Where the two parts are in the classes of the key and agree on its features, they are one object.
    pub(crate) fn key(&mut self, row: Row, p: u8, q: u8)
        requires { lawful row ≡ true }
        ensures went { Went self.old self.new }
        ensures closed { self.new.waiting.grown ≡ false → Keyed row self.new.parts p q }
        ensures right { (R : List Rule) (F : List Claim) → key row.left row.right (key_features row) ∈ R → Right R F self.old.parts → Right R F self.new.parts }
    {
        if is_keyed(&self.parts, row, p, q) {
            self.unite(p, q);
        }
    }

    // The same for a part and the parts of the set, which are places in a block of 64.
    fn key_block(&mut self, row: Row, p: u8, block: u8, set: ClassSet)
        requires lawful { lawful row ≡ true }
        requires low { block < 4 }
        ensures went { Went self.old self.new }
        ensures closed { self.new.waiting.grown ≡ false → KeyedIn row self.new.parts p block set }
        ensures right { (R : List Rule) (F : List Claim) → key row.left row.right (key_features row) ∈ R → Right R F self.old.parts → Right R F self.new.parts }
    {
        for place in set {
            self.key(row, p, 64 * block + place);
        }
    }

    // The same for a part and the parts of a set.
    fn key_each(&mut self, row: Row, p: u8, candidates: PartSet)
        requires { lawful row ≡ true }
        ensures went { Went self.old self.new }
        ensures closed { self.new.waiting.grown ≡ false → (q : ℕ) → q < 256 → In candidates q → Keyed row self.new.parts p q }
        ensures right { (R : List Rule) (F : List Claim) → key row.left row.right (key_features row) ∈ R → Right R F self.old.parts → Right R F self.new.parts }
    {
        for block in 0..4u8 {
            self.key_block(row, p, block, candidates.blocks[usize::from(block)]);
        }
    }

    // The same for one part and every other, where both are their own leaders and the index lists the parts as they are.
    fn key_from(&mut self, row: Row, p: u8, index: &Index)
        requires { lawful row ≡ true }
        ensures went { Went self.old self.new }
        ensures closed { self.new.waiting.grown ≡ false → KeyedFrom row index.now self.new.parts p }
        ensures right { (R : List Rule) (F : List Claim) → key row.left row.right (key_features row) ∈ R → Right R F self.old.parts → Right R F self.new.parts }
    {
        let record = self.parts[usize::from(p)];
        if record.leader != p || !record.classes.has(row.left) {
            return;
        }
        let candidates = index.candidates(row, row.right, &record);
        self.key_each(row, p, candidates);
    }

    // The same for every two parts.
    fn key_all(&mut self, row: Row, index: &Index)
        requires { lawful row ≡ true }
        ensures went { Went self.old self.new }
        ensures closed { self.new.waiting.grown ≡ false → (p : ℕ) → p < 256 → KeyedFrom row index.now self.new.parts p }
        ensures right { (R : List Rule) (F : List Claim) → key row.left row.right (key_features row) ∈ R → Right R F self.old.parts → Right R F self.new.parts }
    {
        for p in 0..=255u8 {
            self.key_from(row, p, index);
        }
    }

    // Adds what the keys say of the parts that the index lists.
    pub(crate) fn keys(&mut self, rules: &Rules, index: &Index)
        ensures went { Went self.old self.new }
        ensures closed { self.new.waiting.grown ≡ false → (k : ℕ) → k < length (key_rows rules.now) → (row_at rules.now k).kind ≡ 5 → (p : ℕ) → p < 256 → KeyedFrom (row_at rules.now k) index.now self.new.parts p }
        ensures right { (F : List Claim) → Meant rules.now → Right (rules_in rules.now) F self.old.parts → Right (rules_in rules.now) F self.new.parts }
    {
        for row in rules.book.rows() {
            if row.kind == RowKind::Key as u8 {
                self.key_all(*row, index);
            }
        }
    }
}
