// Reads a book from standard input, judges it, and prints the report.
#![tactic(auto)]

use anyhow::Context;
use audit::audit;
use std::io::{Read, Write};

// An input that fills 32,768 bytes is too long, whatever follows them. The output has room for every report.
fn main(rt: HostRuntime) -> anyhow::Result<()> {
    let mut input = Vec::new(rt.alloc());
    rt.stdin()
        .take(32768)
        .read_to_end(&mut input)
        .context("standard input cannot be read")?;
    let mut output = [0; 8192];
    let length = audit(&input, &mut output)?;
    rt.stdout()
        .write_all(&output[..length])
        .context("standard output cannot be written")?;
    Ok(())
}
