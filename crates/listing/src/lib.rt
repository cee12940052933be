// Lines for people: the class steps of a book, and why a record is refused.
#![tactic(auto)]

ghost use Rattle.std.specs.Prelude.{◌≡◌, ◌==◌, ℕ, ◌<◌, length, IfOk, Some, string_bytes};
ghost use Rattle.classes.specs.Sets.{has};
ghost use Rattle.listing.specs.Lines.{all_lines, class_lines, kept, line_of, numbers, refusal_line};

use book::sealed::Book;
use classes::ClassSet;
use records::Fault;
use std::alloc::{AllocError, Global};
use std::fmt;

// The number of rows of a book, the class steps of each class, and the classes that are impossible.
pub fn book_lines(heap: Global, book: &Book, impossible: ClassSet) -> Result<String, AllocError>
    ensures { IfOk result (λ s. string_bytes s ≡ all_lines book.now impossible) }
{
    format!(in heap; "{}", BookLines { book, impossible })
}

// The line that says which record is refused, and why.
pub fn refusal_line(heap: Global, fault: Fault) -> Result<String, AllocError>
    ensures { IfOk result (λ s. string_bytes s ≡ refusal_line fault.refusal fault.index) }
{
    format!(in heap; "{fault}\n")
}

// The lines of a book, and of the classes that no world can have an object in.
#[derive(Drop)]
struct BookLines<'a> {
    book: &'a Book,
    impossible: ClassSet,
}

impl<'a> fmt::Display for BookLines<'a> {
    ghost output = { λ l. Some (all_lines l.book.now l.impossible) };

    fn fmt<W: fmt::Write>(&self, f: &mut fmt::Formatter<W>) -> fmt::Result {
        let book = self.book;
        writeln!(f, "rules {}", book.rows().len())?;
        for class in 0..64u8 {
            write!(f, "{}", ClassLines { book, class })?;
        }
        let impossible = Line {
            heading: "impossible",
            classes: self.impossible,
        };
        write!(f, "{impossible}")
    }
}

// The lines of one class: the other classes that it lies within, and those that it leads to by each feature.
#[derive(Drop)]
struct ClassLines<'a> {
    book: &'a Book,
    class: u8,
}

impl<'a> fmt::Display for ClassLines<'a> {
    ghost output = { λ l. Some (class_lines l.book.now l.class) };

    fn fmt<W: fmt::Write>(&self, f: &mut fmt::Formatter<W>) -> fmt::Result {
        let class = self.class;
        let within = Line {
            heading: format_args!("class {class} within"),
            classes: others(self.book.within(class), class),
        };
        write!(f, "{within}")?;
        for feature in 0..16u8 {
            let leads = Line {
                heading: format_args!("class {class} leads by {feature} to"),
                classes: self.book.leads(class, feature),
            };
            write!(f, "{leads}")?;
        }
        Ok(())
    }
}

// The classes of a set but one.
fn others(set: ClassSet, class: u8) -> ClassSet
    ensures { (k : ℕ) → k < 64 → has result k ≡ kept set class k }
{
    let mut own = ClassSet::NONE;
    own.insert(class);
    set.minus(own)
}

// A heading and the classes of a set; nothing where the set has no class.
#[derive(Drop)]
struct Line<T> {
    heading: T,
    classes: ClassSet,
}

impl<T: fmt::Display> fmt::Display for Line<T> {
    ghost output = { λ l. line_of (T.output l.heading) (has l.classes) };

    fn fmt<W: fmt::Write>(&self, f: &mut fmt::Formatter<W>) -> fmt::Result {
        let numbers = Numbers(self.classes);
        if numbers.is_empty() {
            return Ok(());
        }
        writeln!(f, "{}{numbers}", self.heading)
    }
}

// A blank and the number of each class of a set, in rising order.
#[derive(Clone, Copy)]
struct Numbers(ClassSet);

impl Numbers {
    fn is_empty(self) -> bool
        ensures { result ≡ (length (numbers (has self.0)) == 0) }
    {
        self.0.is_empty()
    }
}

impl fmt::Display for Numbers {
    ghost output = { λ n. Some (numbers (has n.0)) };

    fn fmt<W: fmt::Write>(&self, f: &mut fmt::Formatter<W>) -> fmt::Result {
        for class in self.0 {
            write!(f, " {class}")?;
        }
        Ok(())
    }
}

#[cfg(test)]
mod tests {
    use super::*;
    use std::test::Fail;
    use terms::refusal::Refusal;

    #[test]
    fn says_why(rt: HostRuntime) -> Result<(), Fail> {
        let fault = Fault {
            refusal: Refusal::ClassTooHigh,
            index: 3,
        };
        let line = refusal_line(rt.alloc(), fault)?;
        assert!(rt; line.as_bytes() == b"record 3: a class is not below 64\n".as_slice());
        Ok(())
    }

    #[test]
    fn skips_a_class(rt: HostRuntime) -> Result<(), Fail> {
        let mut set = ClassSet::NONE;
        set.insert(63);
        set.insert(5);
        set.insert(0);
        let out = format!(in rt.alloc(); "{}", Numbers(others(set, 5)))?;
        assert!(rt; out.as_bytes() == b" 0 63".as_slice());
        Ok(())
    }
}
