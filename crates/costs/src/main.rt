// Does one thing with the records on standard input again and again, so that its cost can be counted.
#![tactic(auto)]

use anyhow::Context;
use audit::audit;
use book::sealed::Book;
use image::sound;
use judge::judging::judge;
use judge::sheet::Sheet;
use layout::{FACT_SIZE, decode};
use possible::possible;
use records::reading::{read_book, read_draft, read_rules};
use search::ClassPair;
use std::env;
use std::io::Read;
use stores::row::RowStore;
use stores::store::Store;
use terms::fact::Fact;

// One reading of the rule records at the front: how many there are. Of a refusal it is told only that there is one.
fn read_once(input: &[u8]) -> anyhow::Result<usize> {
    let rules = read_rules(input).ok().context("a record is refused")?;
    Ok(rules.records)
}

// The book of a file of rules. Of a refusal it is told only that there is one.
fn sealed(input: &[u8]) -> anyhow::Result<Book> {
    let draft = read_draft(input).ok().context("a record is refused")?;
    Ok(draft.seal())
}

// One reading and sealing: is class 0 the value by feature 0 of an object in it?
fn seal_once(input: &[u8]) -> anyhow::Result<usize> {
    Ok(usize::from(sealed(input)?.leads(0, 0).has(0)))
}

// One reading, sealing and asking: is class 0 possible? Of a refusal it is told only that there is one.
fn ask_once(input: &[u8]) -> anyhow::Result<usize> {
    let book = sealed(input)?;
    let mut pairs = [ClassPair::default(); 4096];
    let mut parts = [0; 256];
    let answer = possible(&book, 0, &mut pairs, &mut parts)
        .ok()
        .context("the question is refused")?;
    Ok(usize::from(answer))
}

// The facts of the records, told one by one to a row store over a table of 5,000 rows: how many it lists.
fn tell_once(input: &[u8]) -> anyhow::Result<usize> {
    let mut rows = [Fact::default(); 5000];
    let mut store = RowStore::open(&mut rows);
    let (records, _) = input.as_chunks::<FACT_SIZE>();
    for record in records {
        let _ = store.tell(decode(record));
    }
    Ok(store.count())
}

// The sound part of the records: how many bytes it has.
fn sound_once(input: &[u8]) -> anyhow::Result<usize> {
    Ok(sound(input).len())
}

// One reading, sealing and judging of a book with its facts: how many facts were judged.
fn judge_once(input: &[u8]) -> anyhow::Result<usize> {
    let opened = read_book(input).context("a record is refused")?;
    let mut sheet = Sheet::new();
    let mut pairs = [ClassPair::default(); 4096];
    let mut parts = [0; 256];
    judge(
        &opened.book,
        &opened.store,
        &mut sheet,
        &mut pairs,
        &mut parts,
    )
    .context("the judging is refused")?;
    Ok(opened.store.count())
}

// One audit: how many bytes it wrote.
fn audit_once(input: &[u8]) -> anyhow::Result<usize> {
    audit(input, &mut [0; 8192]).context("the output does not fit")
}

// The sum of what a step answers to the same input each time.
fn repeat<F: Fn(&[u8]) -> anyhow::Result<usize>>(
    step: F,
    input: &[u8],
    times: u32,
) -> anyhow::Result<usize>
    requires { F.IsAlwaysCallable step }
{
    let mut total = 0usize;
    for _ in 0..times {
        total = total.wrapping_add(step(input)?);
    }
    Ok(total)
}

// The arguments are `read`, `seal`, `ask`, `judge`, `audit`, `tell` or `sound`, and how often.
fn main(rt: HostRuntime) -> anyhow::Result<()> {
    let mut input = Vec::new(rt.alloc());
    rt.stdin().take(32768).read_to_end(&mut input)?;
    let mut words = env::args(&rt)?.skip(1);
    let what = words.next().context("what to do is not told")?;
    let times = words.next().context("how often is not told")?.parse()?;
    let total = match what.as_str() {
        "ask" => repeat(ask_once, &input, times),
        "audit" => repeat(audit_once, &input, times),
        "judge" => repeat(judge_once, &input, times),
        "seal" => repeat(seal_once, &input, times),
        "tell" => repeat(tell_once, &input, times),
        "sound" => repeat(sound_once, &input, times),
        _ => repeat(read_once, &input, times),
    }?;
    println!(rt; "{total}")?;
    Ok(())
}
