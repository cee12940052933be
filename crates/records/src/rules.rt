// The rule records at the front of a file.
ghost use Rattle.std.specs.Prelude.{◌≡◌, ◌*◌, [], length, IfOk};
ghost use Rattle.terms.specs.Refusals.{asked, numbered};
ghost use Rattle.book.specs.Drafts.{grown, listed};
ghost use Rattle.layout.specs.declared.Group.TheVariants.{Rule};
ghost use Rattle.layout.specs.Layout.{layout, row_in};
ghost use Rattle.records.specs.Groups.{RulesRead};
ghost use Rattle.records.specs.Rules.{group_answer, record_questions, rule_group};

use crate::Fault;
use book::draft::Draft;
use layout::{Group, rule_record};
use terms::refusal::Refusal;

// The rule records at the front of the bytes: their rows, how many they are, and where the first byte after them stands.
#[derive(Drop)]
pub struct RuleGroup {
    pub draft: Draft,
    pub records: usize,
    pub end: usize,
}

// Takes the rule record at the front of the bytes into the draft.
fn take_rule(bytes: &[u8], draft: &mut Draft) -> Result<u8, Refusal>
    ensures answer { numbered result ≡ asked (record_questions (listed draft.old) bytes.now) (length (listed draft.old)) }
    ensures after { listed draft.new ≡ grown result (listed draft.old) (row_in bytes.now) }
{
    let row = rule_record(bytes)?;
    draft.rule(row)
}

// Takes the rule records at the front of the bytes. A row's refusal travels up, and this layer adds the record's number to it: a
// form that the project keeps (docs/DECISIONS.md).
pub fn read_rules(bytes: &[u8]) -> Result<RuleGroup, Fault>
    ensures answer { group_answer result bytes.now ≡ rule_group (length bytes.now) [] bytes.now }
    ensures counted { IfOk result (λ g. g.records ≡ length (listed g.draft)) }
    ensures place { IfOk result (λ g. g.end ≡ (layout Rule).size * g.records) }
    ensures read { RulesRead bytes.now result }
{
    let size = Group::Rule.size();
    let mut draft = Draft::new();
    for (index, record) in bytes.chunks(size).enumerate() {
        if !Group::Rule.marks(record) {
            return Ok(RuleGroup {
                draft,
                records: index,
                end: size * index,
            });
        }
        take_rule(record, &mut draft).map_err(|refusal| Fault { refusal, index })?;
    }
    Ok(RuleGroup {
        draft,
        records: bytes.len() / size,
        end: bytes.len(),
    })
}
