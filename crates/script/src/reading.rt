// Reading a line: its words, the numbers among them, and the call.
ghost use Rattle.std.specs.Prelude.{◌≡◌, ℕ, ◌<◌, ◌≢◌, ◌↔◌, map, decimal, option_map, Some, IfOk, MatchOption};
ghost use Rattle.script.specs.Lines.{Meant, meant, words_of, NoNumbers, Bytes, meant_by, tell_of, member_of, same_of, alone, IsLineOf};

use crate::ask::Ask;
use itoa::Buffer;
use std::alloc::{AllocError, Global};
use terms::fact::Fact;

// The number that a word is, if it is one below 256 as numbers are printed: no sign, and no zero before another digit.
fn number(word: &str) -> Option<u8>
    ensures { MatchOption result ((n : ℕ) → n < 256 → word.now ≢ decimal n) (λ n. word.now ≡ decimal n) }
{
    let Ok(number) = word.parse::<u8>() else {
        return None;
    };
    if Buffer::new().format(number) == word {
        Some(number)
    } else {
        None
    }
}

// The numbers that the words are, if each is one.
fn numbers(heap: Global, words: &[&str]) -> Result<Option<Vec<u8>>, AllocError>
    ensures { IfOk result (λ r. MatchOption r (NoNumbers (map (λ w. w.now) words.now)) (λ ns. Bytes ns.items × (map (λ w. w.now) words.now ≡ map decimal ns.items))) }
{
    let mut numbers = Vec::new(heap);
    for word in words {
        let Some(number) = number(word) else {
            return Ok(None);
        };
        numbers.push(number)?;
    }
    Ok(Some(numbers))
}

// A fact has three numbers after its kind; a third that is not written is 0.
fn tell(numbers: &[u8]) -> Option<Ask>
    ensures { option_map meant result ≡ tell_of numbers.now }
{
    let (kind, first, second, third) = match *numbers {
        [kind, first, second] => (kind, first, second, 0),
        [kind, first, second, third] => (kind, first, second, third),
        _ => return None,
    };
    Some(Ask::Tell(Fact {
        kind,
        first,
        second,
        third,
    }))
}

// The part comes first and the class last; the numbers between them are the word's letters.
fn member(heap: Global, numbers: &[u8]) -> Result<Option<Ask>, AllocError>
    ensures { IfOk result (λ r. option_map meant r ≡ member_of numbers.now) }
{
    let [part, word @ .., class] = numbers else {
        return Ok(None);
    };
    Ok(Some(Ask::Member {
        part: *part,
        word: Vec::from_slice(heap, word)?,
        class: *class,
    }))
}

fn same(numbers: &[u8]) -> Option<Ask>
    ensures { option_map meant result ≡ same_of numbers.now }
{
    let [p, q] = *numbers else {
        return None;
    };
    Some(Ask::Same { p, q })
}

// A call that is given no number.
fn alone(ask: Ask, numbers: &[u8]) -> Option<Ask>
    ensures { option_map meant result ≡ alone (meant ask) numbers.now }
{
    if numbers.is_empty() { Some(ask) } else { None }
}

// The call that a name and its numbers ask for.
fn asked(heap: Global, name: &str, numbers: &[u8]) -> Result<Option<Ask>, AllocError>
    ensures { IfOk result (λ r. option_map meant r ≡ meant_by name.now numbers.now) }
{
    match name {
        "tell" => Ok(tell(numbers)),
        "judge" => Ok(alone(Ask::Judge, numbers)),
        "member" => member(heap, numbers),
        "same" => Ok(same(numbers)),
        "word" => Ok(alone(Ask::Word, numbers)),
        _ => Ok(None),
    }
}

// The words of a line, cut at each blank.
fn words(heap: Global, line: &str) -> Result<Vec<&str>, AllocError>
    ensures { IfOk result (λ ws. map (λ w. w.now) ws.items ≡ words_of line.now) }
{
    line.split(' ').collect(heap)
}

// The call that a line asks for, or nothing where it asks for none.
pub fn read(heap: Global, line: &str) -> Result<Option<Ask>, AllocError>
    ensures { IfOk result (λ r. (m : Meant) → (option_map meant r ≡ Some m) ↔ IsLineOf m line.now) }
{
    let words = words(heap, line)?;
    let Some((name, rest)) = words.split_first() else {
        return Ok(None);
    };
    match numbers(heap, rest)? {
        Some(numbers) => asked(heap, name, &numbers),
        None => Ok(None),
    }
}
