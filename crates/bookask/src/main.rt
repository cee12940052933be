// Answers a script of calls on a book: for each line of standard input one line.
#![tactic(auto)]

ghost use Rattle.std.specs.Prelude.{◌≡◌, ◌↔◌, option_map, IfOk, Some};
ghost use Rattle.std.specs.Io.BufRead.{strip_last};
ghost use Rattle.script.specs.Lines.{Meant, meant};
ghost use Rattle.bookask.specs.Replies.{AsksFor};

use crate::replies::reply;
use anyhow::Context;
use judge::sheet::Sheet;
use records::opened::Opened;
use records::reading::read_book;
use script::ask::Ask;
use script::reading::read;
use std::alloc::{AllocError, Global};
use std::io::{BufRead, BufReader};
use std::process::ExitCode;
use std::{env, fs, str};

mod replies;

// A line without its end.
fn text_of(line: &[u8]) -> &[u8]
    ensures { result.now ≡ strip_last 10 line.now }
{
    match line {
        [text @ .., b'\n'] => text,
        _ => line,
    }
}

// The call that a line asks for.
fn asked(heap: Global, line: &[u8]) -> Result<Option<Ask>, AllocError>
    ensures { IfOk result (λ ask. (m : Meant) → (option_map meant ask ≡ Some m) ↔ AsksFor m line.now) }
{
    match str::from_utf8(text_of(line)) {
        Ok(text) => read(heap, text),
        Err(_) => Ok(None),
    }
}

// Answers each line of standard input; the status says whether each was a call.
fn answer_script(rt: &HostRuntime, opened: &mut Opened) -> anyhow::Result<ExitCode> {
    let heap = rt.alloc();
    let mut sheet = Sheet::new();
    let mut status = ExitCode::SUCCESS;
    let mut input = BufReader::new(heap, rt.reader())?;
    let mut line = Vec::new(heap);
    for number in 1..u64::MAX {
        line.clear();
        if input.read_until(b'\n', &mut line)? == 0 {
            break;
        }
        match asked(heap, &line)? {
            Some(ask) => rt.println(reply(heap, opened, &mut sheet, &ask)?)?,
            None => {
                println!(rt; "line {number}: not a call")?;
                status = ExitCode::FAILURE;
            }
        }
    }
    Ok(status)
}

// The argument is the name of a book's file.
fn main(rt: HostRuntime) -> anyhow::Result<ExitCode> {
    let name = env::args(&rt)?
        .nth(1)
        .context("the name of a book is not told")?;
    let bytes = fs::read(&rt, &name).context("the book cannot be read")?;
    match read_book(&bytes) {
        Ok(mut opened) => answer_script(&rt, &mut opened),
        Err(fault) => {
            rt.println(fault)?;
            Ok(ExitCode::FAILURE)
        }
    }
}
