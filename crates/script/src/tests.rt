// What lines are read as, on examples.
use crate::ask::Ask;
use crate::reading::read;
use std::alloc::Global;
use std::process::Abort;
use std::test::Fail;
use terms::fact::Fact;

// The line asks for the call.
fn asks(rt: &impl Abort, heap: Global, line: &str, ask: Ask) -> Result<(), Fail> {
    assert_eq!(rt; read(heap, line)?, Some(ask));
    Ok(())
}

// The line asks for no call.
fn asks_nothing(rt: &impl Abort, heap: Global, line: &str) -> Result<(), Fail> {
    assert_eq!(rt; read(heap, line)?, None);
    Ok(())
}

fn told(kind: u8, first: u8, second: u8, third: u8) -> Ask {
    Ask::Tell(Fact {
        kind,
        first,
        second,
        third,
    })
}

fn member(heap: Global, part: u8, word: &[u8], class: u8) -> Result<Ask, Fail> {
    Ok(Ask::Member {
        part,
        word: Vec::from_slice(heap, word)?,
        class,
    })
}

#[test]
fn facts(rt: HostRuntime) -> Result<(), Fail> {
    let heap = rt.alloc();
    asks(&rt, heap, "tell 1 7 0", told(1, 7, 0, 0))?;
    asks(&rt, heap, "tell 2 7 3 9", told(2, 7, 3, 9))?;
    asks(&rt, heap, "tell 0 255 255 255", told(0, 255, 255, 255))?;
    asks_nothing(&rt, heap, "tell 1 7")?;
    asks_nothing(&rt, heap, "tell 2 7 3 9 0")
}

#[test]
fn questions(rt: HostRuntime) -> Result<(), Fail> {
    let heap = rt.alloc();
    asks(&rt, heap, "judge", Ask::Judge)?;
    asks(&rt, heap, "word", Ask::Word)?;
    asks(&rt, heap, "same 1 2", Ask::Same { p: 1, q: 2 })?;
    asks(&rt, heap, "member 4 2", member(heap, 4, &[], 2)?)?;
    asks(&rt, heap, "member 4 0 15 2", member(heap, 4, &[0, 15], 2)?)?;
    asks_nothing(&rt, heap, "member 4")?;
    asks_nothing(&rt, heap, "judge 1")
}

#[test]
fn other_lines(rt: HostRuntime) -> Result<(), Fail> {
    let heap = rt.alloc();
    asks_nothing(&rt, heap, "")?;
    asks_nothing(&rt, heap, "Judge")?;
    asks_nothing(&rt, heap, "judge ")?;
    asks_nothing(&rt, heap, "same  1 2")?;
    asks_nothing(&rt, heap, "same 01 2")?;
    asks_nothing(&rt, heap, "same +1 2")?;
    asks_nothing(&rt, heap, "same 256 2")?;
    asks_nothing(&rt, heap, "same 1 2\n")
}
