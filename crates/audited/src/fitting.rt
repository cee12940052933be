// Each kind of text into outputs of every size around its own: it is written whole, or nothing is.
ghost use Rattle.std.specs.Prelude.{◌≤◌};

use crate::making::{CHAINED, CHAINS, FACTORY, RULES};
use audit::audit;
use std::process::Abort;
use std::test::Fail;
use terms::refusal::Refusal;

// What an output holds before a call.
const BLANK: [u8; 64] = [0xEE; 64];

// Audits into the first `size` bytes of an output, and looks at all 64.
fn check_size(rt: &impl Abort, input: &[u8], text: &str, size: usize)
    requires { size ≤ 64 }
{
    let mut out = BLANK;
    let mut want = BLANK;
    let mut answer = Err(Refusal::OutputDoesNotFit);
    if text.len() <= size {
        want[..text.len()].copy_from_slice(text.as_bytes());
        answer = Ok(text.len());
    }
    assert_eq!(rt; audit(input, &mut out[..size]), answer, "{size} bytes");
    assert_eq!(rt; out, want, "{size} bytes");
}

// The same for every size up to 64, and the text leaves some of them unwritten.
fn check_sizes(rt: &impl Abort, input: &[u8], text: &str) {
    assert!(rt; text.len() < 64);
    for size in 0..=64 {
        check_size(rt, input, text, size);
    }
}

#[test]
fn report_of_a_book_that_stands(rt: HostRuntime) -> Result<(), Fail> {
    let book = [RULES.as_flattened(), &FACTORY[0]].concat(rt.alloc())?;
    check_sizes(&rt, &book, "rules 2\nfacts 1\nstands\n");
    Ok(())
}

// The value by feature 0 of class 0 is in class 1; class 1 lies within 2; what has a value by feature 0 in class 2 is in
// class 3; nothing is in both 0 and 3.
const IMPLIED: [[u8; 10]; 4] = [
    [0x50, 0x52, 3, 0, 1, 1, 0, 0, 0, 0],
    [0x50, 0x52, 1, 1, 2, 0, 0, 0, 0, 0],
    [0x50, 0x52, 4, 2, 3, 1, 0, 0, 0, 0],
    [0x50, 0x52, 2, 0, 3, 0, 0, 0, 0, 0],
];

#[test]
fn report_of_five_records_that_clash_with_an_empty_word(rt: HostRuntime) -> Result<(), Fail> {
    let book = [IMPLIED.as_flattened(), &[0x50, 0x46, 1, 7, 0, 0]].concat(rt.alloc())?;
    check_sizes(&rt, &book, "rules 4\nfacts 1\nclash part 7 row 3 word\n");
    Ok(())
}

#[test]
fn report_of_a_clash_after_two_untold_values(rt: HostRuntime) -> Result<(), Fail> {
    let book = [CHAINS.as_flattened(), CHAINED.as_flattened()].concat(rt.alloc())?;
    check_sizes(
        &rt,
        &book,
        "rules 5\nfacts 2\nclash part 3 row 4 word 4 15\n",
    );
    Ok(())
}

#[test]
fn line_of_a_refusal(rt: HostRuntime) {
    let rules = [RULES[0]; 11];
    check_sizes(&rt, &rules.as_flattened()[..101], "refused 12 record 10\n");
}
