// What the rows say of classes directly, as tables of sets.
ghost use Rattle.std.specs.Prelude.{◌≡◌, true, List, [], ◌∷◌, ◌++◌};
ghost use Rattle.terms.specs.Rows.{lawful, all_lawful};
ghost use Rattle.terms.specs.Worlds.{Rule, rule_of, rules_of};

use classes::ClassSet;
use terms::kind::RowKind;
use terms::row::Row;

// What the rows say of one feature: `ahead` has at class A the classes of kind 3 rows, `behind` those of kind 4 rows.
// Two tables and none of pairs, here and below, since `gather` goes over one table whole.
#[derive(Clone, Copy)]
pub struct FeatureLinks {
    pub ahead: [ClassSet; 64],
    pub behind: [ClassSet; 64],
}

// `above` has at class A the classes of kind 1 rows, and `into` has at B each class with a kind 3 row to B.
#[derive(Drop)]
pub struct Links {
    pub above: [ClassSet; 64],
    pub by_feature: [FeatureLinks; 16],
    pub into: [ClassSet; 64],
}

impl Links {
    ghost use Rattle.book.specs.Sealing.{Direct};

    fn none() -> Links
        ensures { Direct [] result }
    {
        let none = [ClassSet::NONE; 64];
        let unlinked = FeatureLinks {
            ahead: none,
            behind: none,
        };
        Links {
            above: none,
            by_feature: [unlinked; 16],
            into: none,
        }
    }

    fn add(&mut self, row: Row)
        requires { lawful row ≡ true }
        ensures { (R : List Rule) → Direct R self.old → Direct (R ++ rule_of row ∷ []) self.new }
    {
        let left = usize::from(row.left);
        let right = usize::from(row.right);
        let feature = usize::from(row.features[0]);
        let Ok(kind) = RowKind::try_from(row.kind) else {
            return;
        };
        match kind {
            RowKind::Subclass => self.above[left].insert(row.right),
            RowKind::Value => {
                self.by_feature[feature].ahead[left].insert(row.right);
                self.into[right].insert(row.left);
            }
            RowKind::Pullback => self.by_feature[feature].behind[left].insert(row.right),
            RowKind::Exclusion | RowKind::Key => {}
        }
    }

    // The links of the rows.
    pub(crate) fn of(rows: &[Row]) -> Links
        requires { all_lawful rows.now ≡ true }
        ensures { Direct (rules_of rows.now) result }
    {
        let mut links = Links::none();
        for row in rows {
            links.add(*row);
        }
        links
    }
}
