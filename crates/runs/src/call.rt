// Calls on a book, a store and a sheet, with what is lent to them, and their answers.
ghost use Rattle.std.specs.Prelude.{◌≡◌};

use judge::verdict::Verdict;
use search::ClassPair;
use stores::told::Told;
use terms::fact::Fact;
use terms::refusal::Refusal;

// A call, and the letters, the work areas or the buffer that are lent to it.
#[derive(Drop)]
pub enum Call<'a, 'b> {
    Tell {
        fact: Fact,
    },
    Judge {
        pairs: &'a mut [ClassPair],
        parts: &'b mut [u8],
    },
    Member {
        part: u8,
        word: &'a [u8],
        class: u8,
    },
    Same {
        p: u8,
        q: u8,
    },
    Word {
        place: usize,
        out: &'a mut [u8],
    },
}

// What a call of each kind answers.
#[derive(Clone, Copy, PartialEq, Eq, Debug)]
pub enum Answer {
    Tell(Result<Told, Refusal>),
    Judge(Result<Verdict, Refusal>),
    Member(Result<bool, Refusal>),
    Same(Result<bool, Refusal>),
    Word(Result<usize, Refusal>),
}

// A call of a list, and its answer once it is made.
#[derive(Drop)]
pub struct Entry<'a, 'b> {
    pub call: Call<'a, 'b>,
    pub answer: Option<Answer>,
}

impl<'a, 'b> Entry<'a, 'b> {
    // A call that is not made yet.
    pub fn new(call: Call<'a, 'b>) -> Entry<'a, 'b>
        ensures call { result.call ≡ call.entry }
        ensures answer { result.answer ≡ None }
    {
        Entry { call, answer: None }
    }
}
