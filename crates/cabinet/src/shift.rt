// A shift's work on a log: facts told on top of it, and the log handed back.
ghost use Rattle.std.specs.Prelude.{◌≡◌, ◌++◌, length, replicate};
ghost use Rattle.stores.specs.Meaning.{listed, Tells, TellLaw, places_used};
ghost use Rattle.stores.specs.Piles.{pile_facts, pile_room, free_over, PileValid};
ghost use Rattle.cabinet.specs.Logs.{in_use, log_facts, log_room, next_entry};

use crate::Cabinet;
use stores::additions::Additions;
use stores::calls::lists;
use stores::store::Store;
use stores::told::Told;
use terms::fact::Fact;
use terms::refusal::Refusal;

// Is the fact in the log's list?
pub fn knows(log: &Cabinet, fact: Fact) -> bool
    ensures { result ≡ listed (log_facts log.now) fact }
{
    lists(log, fact)
}

// Tells the log a fact by the cabinet's own call, which says of the entries, the clock and the panel what no call for
// stores of any make can say; the law of tell follows from its clauses.
pub fn note(log: &mut Cabinet, fact: Fact) -> Result<Told, Refusal>
    ensures law { TellLaw (log_facts log.old) (log_room log.old) fact result (log_facts log.new) (log_room log.new) }
    ensures unchanged { places_used result ≡ 0 → log.new ≡ log.old }
    ensures written { in_use log.new ≡ in_use log.old ++ replicate (places_used result) (next_entry log.old fact) }
    ensures kept { (log.new.clock ≡ log.old.clock) × (log.new.panel ≡ log.old.panel) }
{
    log.tell(fact)
}

// Begins a shift over the log with one fact: what was told, and the pile.
pub fn begin(log: Cabinet, fact: Fact) -> (Result<Told, Refusal>, Additions<Cabinet>)
    ensures valid { PileValid log_facts (λ _. Unit {0}) result.1 }
    ensures tells { Tells (log_facts log) (free_over 0 (length (log_facts log))) fact result.0 (pile_facts log_facts result.1) (pile_room log_facts result.1) }
    ensures lower { result.1.below ≡ log }
{
    let mut pile = Additions::over(log);
    let told = pile.tell(fact);
    (told, pile)
}

// Tells the pile a fact more, and hands the log back as it was before the shift.
pub fn end(pile: Additions<Cabinet>, fact: Fact) -> Cabinet
    requires { PileValid log_facts (λ _. Unit {0}) pile }
    ensures { result ≡ pile.below }
{
    let mut pile = pile;
    let _ = pile.tell(fact);
    pile.into_below()
}
