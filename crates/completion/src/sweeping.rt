// What is looked at first: the parts that wait, and the keys that may apply anew. No promise rests on it, since a pass over all comes last.
ghost use Rattle.std.specs.Prelude.{◌≡◌, ◌<◌, true};
ghost use Rattle.terms.specs.Rows.{lawful};

use crate::growth::Growth;
use crate::index::Index;
use crate::part_set::PartSet;
use crate::rules::Rules;
use classes::ClassSet;
use terms::kind::RowKind;
use terms::row::Row;

impl<'a> Growth<'a> {
    ghost use Rattle.completion.specs.Closed.{Follows, Joins};

    // The part is in the classes that those of its value by the feature are pulled back to, if that is the value told.
    fn lift_one(&mut self, rules: &Rules, value: u8, feature: u8, pulled: ClassSet, part: u8)
        requires { feature < 16 }
        ensures { Follows rules.now self.old self.new }
    {
        let record = self.parts[usize::from(part)];
        if record.value(feature) == Some(value) && !pulled.minus(record.classes).is_empty() {
            self.follow(rules, part, feature);
        }
    }

    // The same for places in a block of 64 parts.
    fn lift_block(
        &mut self,
        rules: &Rules,
        value: u8,
        feature: u8,
        pulled: ClassSet,
        block: u8,
        set: ClassSet,
    )
        requires low { feature < 16 }
        requires in_range { block < 4 }
        ensures { Follows rules.now self.old self.new }
    {
        for place in set {
            self.lift_one(rules, value, feature, pulled, 64 * block + place);
        }
    }

    // The same for all that have the value by the feature.
    fn lift_by(&mut self, rules: &Rules, value: u8, feature: u8)
        requires { feature < 16 }
        ensures { Follows rules.now self.old self.new }
    {
        let pulled = rules.pulled(feature, self.parts[usize::from(value)].classes);
        if pulled.is_empty() {
            return;
        }
        let named = self.waiting.named[usize::from(value)];
        for block in 0..4u8 {
            self.lift_block(
                rules,
                value,
                feature,
                pulled,
                block,
                named.blocks[usize::from(block)],
            );
        }
    }

    // The same by each feature.
    fn lift(&mut self, rules: &Rules, value: u8)
        ensures { Follows rules.now self.old self.new }
    {
        for feature in 0..16u8 {
            self.lift_by(rules, value, feature);
        }
    }

    // Adds what the rules but the keys say of a part and of those that have it as a value; one that is another's hands over.
    fn look(&mut self, rules: &Rules, part: u8)
        ensures { Follows rules.now self.old self.new }
    {
        if self.leader(part) == part {
            self.visit(rules, part);
            self.lift(rules, part);
        } else {
            self.hand_over(part);
        }
    }

    // Looks at the parts that wait, and at those that wait then, until none does.
    pub(crate) fn settle(&mut self, rules: &Rules)
        ensures { Follows rules.now self.old self.new }
    {
        while let Some(part) = self.waiting.take() {
            self.look(rules, part);
        }
    }

    // Two parts are one object where the key says so of the two in either order.
    fn meet(&mut self, row: Row, p: u8, q: u8)
        requires { lawful row ≡ true }
        ensures { Joins row self.old self.new }
    {
        if p != q {
            self.key(row, p, q);
            self.key(row, q, p);
        }
    }

    // The same for a part and places in a block of 64 parts.
    fn meet_block(&mut self, row: Row, p: u8, block: u8, set: ClassSet)
        requires lawful { lawful row ≡ true }
        requires low { block < 4 }
        ensures { Joins row self.old self.new }
    {
        for place in set {
            self.meet(row, p, 64 * block + place);
        }
    }

    // The same for a part and the parts of a set.
    fn meet_each(&mut self, row: Row, p: u8, candidates: PartSet)
        requires { lawful row ≡ true }
        ensures { Joins row self.old self.new }
    {
        for block in 0..4u8 {
            self.meet_block(row, p, block, candidates.blocks[usize::from(block)]);
        }
    }

    // The same for a part and those that the index lists, by the classes of the part that are due; its record is that of the
    // index, since values may have been renamed since. What a part that was joined to another had is due at the other.
    fn sweep_row(&mut self, row: Row, p: u8, due: ClassSet, index: &Index)
        requires { lawful row ≡ true }
        ensures { Joins row self.old self.new }
    {
        if self.leader(p) != p {
            return;
        }
        let record = &index.records[usize::from(p)];
        if due.has(row.left) {
            self.meet_each(row, p, index.candidates(row, row.right, record));
        }
        if row.left != row.right && due.has(row.right) {
            self.meet_each(row, p, index.candidates(row, row.left, record));
        }
    }

    // The same for every key.
    fn sweep_part(&mut self, rules: &Rules, p: u8, due: ClassSet, index: &Index)
        ensures { Follows rules.now self.old self.new }
    {
        for row in rules.book.rows() {
            if row.kind == RowKind::Key as u8 {
                self.sweep_row(*row, p, due, index);
            }
        }
    }

    // The same for every part for which something is due.
    fn sweep_listed(&mut self, rules: &Rules, due: &[ClassSet; 256], index: &Index)
        ensures { Follows rules.now self.old self.new }
    {
        for p in 0..=255u8 {
            let due = index.due(p, due[usize::from(p)]);
            if !due.is_empty() {
                self.sweep_part(rules, p, due, index);
            }
        }
    }

    // Looks at the keys for what is due.
    pub(crate) fn sweep(&mut self, rules: &Rules, index: &Index)
        ensures { Follows rules.now self.old self.new }
    {
        let due = self.waiting.take_due();
        self.sweep_listed(rules, &due, index);
    }
}
