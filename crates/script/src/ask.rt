// What a line of a script asks for.
use terms::fact::Fact;

// A call, by what it is given; what is lent to a call is the runner's.
#[derive(Drop, PartialEq, Eq, Debug)]
pub enum Ask {
    Tell(Fact),
    Judge,
    Member { part: u8, word: Vec<u8>, class: u8 },
    Same { p: u8, q: u8 },
    Word,
}
