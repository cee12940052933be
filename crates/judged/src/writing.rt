// Letters and reports written into buffers of every size around theirs, from every place.
ghost use Rattle.std.specs.Prelude.{◌≤◌};

use crate::making::{chain, clash, exclusion, in_class, judged, standing, value};
use judge::sheet::Sheet;
use std::process::Abort;
use terms::example::example;
use terms::refusal::Refusal;
use terms::row::Row;

// What a buffer holds before a call.
const BLANK: [u8; 64] = [0xEE; 64];

// Writes from the place on into the first `size` bytes of a buffer, and looks at all 64.
fn check_at<W: Fn(&mut [u8], usize) -> Result<usize, Refusal>>(
    rt: &impl Abort,
    write: &W,
    text: &[u8],
    size: usize,
    place: usize,
)
    requires callable { W.IsAlwaysCallable write.now }
    requires size { size ≤ 64 }
{
    let mut out = BLANK;
    let mut want = BLANK;
    let mut answer = Err(Refusal::OutputDoesNotFit);
    if place <= size && text.len() <= size - place {
        want[place..place + text.len()].copy_from_slice(text);
        answer = Ok(text.len());
    }
    assert_eq!(rt;
        write(&mut out[..size], place),
        answer,
        "{size} bytes, from {place}"
    );
    assert_eq!(rt; out, want, "{size} bytes, from {place}");
}

// The same for every place in the buffer, that at its end, and two past it.
fn check_places<W: Fn(&mut [u8], usize) -> Result<usize, Refusal>>(
    rt: &impl Abort,
    write: &W,
    text: &[u8],
    size: usize,
)
    requires callable { W.IsAlwaysCallable write.now }
    requires size { size ≤ 64 }
{
    for place in 0..=size + 1 {
        check_at(rt, write, text, size, place);
    }
    check_at(rt, write, text, size, usize::MAX);
}

// The same for every size up to 64.
fn check_sizes<W: Fn(&mut [u8], usize) -> Result<usize, Refusal>>(
    rt: &impl Abort,
    write: W,
    text: &[u8],
)
    requires { W.IsAlwaysCallable write }
{
    for size in 0..=64 {
        check_places(rt, &write, text, size);
    }
}

fn check_word(rt: &impl Abort, sheet: &Sheet, letters: &[u8]) {
    check_sizes(rt, |out, place| sheet.word(out, place), letters);
}

fn check_report(rt: &impl Abort, sheet: &Sheet, lines: &[u8]) {
    check_sizes(rt, |out, place| sheet.report(out, place), lines);
}

#[test]
fn of_rows_that_stand(rt: HostRuntime) {
    let sheet = standing(&rt, &chain(), &[in_class(9, 3), in_class(0, 3)]);
    check_report(&rt, &sheet, b"rules 3\nfacts 2\nstands\n");
    let sheet = standing(&rt, &[], &[]);
    check_report(&rt, &sheet, b"rules 0\nfacts 0\nstands\n");
}

#[test]
fn of_a_clash_with_no_letter(rt: HostRuntime) {
    let (_, sheet) = judged(&rt, &example(), &[in_class(7, 0)]);
    check_word(&rt, &sheet, b"");
    check_report(&rt, &sheet, b"rules 4\nfacts 1\nclash part 7 row 3 word\n");
}

#[test]
fn of_a_clash_with_two_letters(rt: HostRuntime) {
    let (_, sheet) = judged(&rt, &chain(), &[in_class(0, 0)]);
    check_word(&rt, &sheet, &[0, 1]);
    check_report(
        &rt,
        &sheet,
        b"rules 3\nfacts 1\nclash part 0 row 2 word 0 1\n",
    );
}

// 256 rows: from class 60 by 15, 9 and 10 to class 63, which the last row, an exclusion, leaves empty.
fn many_rows() -> [Row; 256] {
    let mut rows = [value(61, 9, 62); 256];
    rows[0] = value(60, 15, 61);
    rows[254] = value(62, 10, 63);
    rows[255] = exclusion(63, 63);
    rows
}

#[test]
fn of_the_highest_numbers(rt: HostRuntime) {
    let (verdict, sheet) = judged(&rt, &many_rows(), &[in_class(255, 60)]);
    assert_eq!(rt; verdict, clash(255, 255, 3));
    check_word(&rt, &sheet, &[15, 9, 10]);
    let lines = b"rules 256\nfacts 1\nclash part 255 row 255 word 15 9 10\n";
    check_report(&rt, &sheet, lines);
}
