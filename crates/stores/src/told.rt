// How a fact was accepted, and what a store answers to a fact.
ghost use Rattle.std.specs.Prelude.{◌≡◌, ◌≤◌, Some};
ghost use Rattle.terms.specs.Refusals.{asked};
ghost use Rattle.stores.specs.Meaning.{saying, worded, places_used, place_questions, answer_questions, answer_accepted};

use std::fmt;
use terms::fact::Fact;
use terms::refusal::Refusal;

// The fact was put at the list's end, or was listed already.
#[derive(Clone, Copy, PartialEq, Eq, Debug)]
pub enum Told {
    Added,
    Already,
}

impl Told {
    // The word for people.
    pub fn word(self) -> &'static str
        ensures { result.now ≡ (saying self).word }
    {
        match self {
            Told::Added => "added",
            Told::Already => "already",
        }
    }
}

impl fmt::Display for Told {
    ghost output = { λ t. Some ((saying t).word) };

    fn fmt<W: fmt::Write>(&self, f: &mut fmt::Formatter<W>) -> fmt::Result {
        f.write_str(self.word())
    }
}

// What a store answers to a fact, by whether it lists the fact and how many places are free.
pub fn answer(fact: Fact, listed: bool, free: usize) -> Result<Told, Refusal>
    ensures answer { worded result ≡ asked (answer_questions listed free fact) (answer_accepted listed) }
    ensures place { places_used result ≤ free }
{
    fact.check()?;
    answer_lawful(listed, free)
}

// What is left to ask of a fact whose own questions all had yes. A make's own `tell` asks those first, by `check`, so that an
// unlawful fact costs no scan of its list; then it asks this, and writes the fact where the answer is `Added`. That is all
// that the `tell`s share, since each has clauses of its own.
pub fn answer_lawful(listed: bool, free: usize) -> Result<Told, Refusal>
    ensures answer { worded result ≡ asked (place_questions listed free) (answer_accepted listed) }
    ensures place { places_used result ≤ free }
{
    if listed {
        return Ok(Told::Already);
    }
    if free == 0 {
        return Err(Refusal::NoFreePlace);
    }
    Ok(Told::Added)
}
