// The text of a report, put together before it is written.
ghost use Rattle.std.specs.Prelude.{◌≡◌, ◌+◌, ◌≤◌, [], ◌++◌, ◌∷◌, decimal, length};

use arrayvec::ArrayVec;
use itoa::Buffer;

// The longest report: two numbers of at most five digits, a clash line with 2,079 letters of two digits, and the words between.
#[derive(Drop)]
pub struct Text {
    bytes: ArrayVec<u8, 6400>,
}

impl Text {
    ghost use Rattle.judge.specs.Texts.{said};

    pub(crate) fn new() -> Text
        ensures { said result ≡ [] }
    {
        Text {
            bytes: ArrayVec::new(),
        }
    }

    pub(crate) fn as_slice(&self) -> &[u8]
        ensures { result.now ≡ said self.now }
    {
        self.bytes.as_slice()
    }

    // Adds words.
    pub(crate) fn words(&mut self, words: &[u8])
        requires { length (said self.old) + length words.now ≤ 6400 }
        ensures { said self.new ≡ said self.old ++ words.now }
    {
        let _ = self.bytes.try_extend_from_slice(words);
    }

    // Adds a blank and a number.
    pub(crate) fn number(&mut self, number: usize)
        requires { length (said self.old) + 1 + length (decimal number) ≤ 6400 }
        ensures { said self.new ≡ said self.old ++ 32 ∷ decimal number }
    {
        self.words(b" ");
        self.words(Buffer::new().format(number).as_bytes());
    }
}
