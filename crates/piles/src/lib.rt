// Row stores, images and piles of stores at work.
#![tactic(auto)]

ghost use Rattle.std.specs.Prelude.{◌≡◌, ◌-◌, length};
ghost use Rattle.terms.specs.Refusals.{asked};
ghost use Rattle.stores.specs.Meaning.{worded, tell_questions, accepted_as};
ghost use Rattle.stores.specs.Piles.{free_over};
ghost use Rattle.stores.specs.Rows.{row_facts, row_room};
ghost use Rattle.piles.specs.Tables.{places_of, told, told_all, rows_with};

use stores::additions::Additions;
use stores::row::RowStore;
use stores::store::Store;
use stores::told::Told;
use terms::fact::Fact;
use terms::refusal::Refusal;

#[cfg(test)]
mod tests;

// A row store over the table, told the facts one after another.
pub fn tell_all<'a>(rows: &'a mut [Fact], facts: &[Fact]) -> RowStore<'a>
    ensures list { row_facts result ≡ told_all (places_of rows.old) facts.now }
    ensures room { row_room result ≡ places_of rows.old - length (told_all (places_of rows.old) facts.now) }
    ensures held { result.rows.now ≡ rows_with (told_all (places_of rows.old) facts.now) rows.old }
    ensures lent { result.rows.ghost_name ≡ rows.entry.ghost_name }
{
    let mut store = RowStore::open(rows);
    for fact in facts {
        let _ = store.tell(*fact);
    }
    store
}

// Tells a row store over the table the facts one after another, then one more, and ends the store: what it answered to the
// last. The table then holds the list in front, and past it what it held before.
pub fn tell_table(rows: &mut [Fact], before: &[Fact], fact: Fact) -> Result<Told, Refusal>
    ensures answer { let list = told_all (places_of rows.old) before.now in
        worded result ≡ asked (tell_questions list (places_of rows.old - length list) fact) (accepted_as list fact) }
    ensures table { rows.new ≡ rows_with (told (places_of rows.old) (told_all (places_of rows.old) before.now) fact) rows.old }
{
    let mut store = tell_all(rows, before);
    store.tell(fact)
}

// What additions over a row store answered to a fact, and the table that is handed back from under them.
fn tell_above<'a>(
    rows: &'a mut [Fact],
    facts: &[Fact],
    fact: Fact,
) -> (Result<Told, Refusal>, &'a mut [Fact])
    ensures answer { let list = told_all (places_of rows.old) facts.now in
        worded result.0 ≡ asked (tell_questions list (free_over 0 (length list)) fact) (accepted_as list fact) }
    ensures held { result.1.now ≡ rows_with (told_all (places_of rows.old) facts.now) rows.old }
    ensures lent { result.1.ghost_name ≡ rows.entry.ghost_name }
{
    let mut pile = Additions::over(tell_all(rows, facts));
    let answer = pile.tell(fact);
    (answer, pile.into_below().into_rows())
}

// Tells a row store over the table the facts one after another, and additions over it one more, which are then taken off
// again: what they answered. The table then holds the list of the row store in front, and past it what it held before.
pub fn tell_over_table(rows: &mut [Fact], facts: &[Fact], fact: Fact) -> Result<Told, Refusal>
    ensures answer { let list = told_all (places_of rows.old) facts.now in
        worded result ≡ asked (tell_questions list (free_over 0 (length list)) fact) (accepted_as list fact) }
    ensures table { rows.new ≡ rows_with (told_all (places_of rows.old) facts.now) rows.old }
{
    let (answer, _rows) = tell_above(rows, facts, fact);
    answer
}
