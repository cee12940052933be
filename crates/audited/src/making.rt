// Records, and what an audit must write of them.
use audit::audit;
use std::process::Abort;

// The rules of a small book: the value by feature 3 of class 0 is in class 1, and nothing is in class 1.
pub(crate) const RULES: [[u8; 10]; 2] = [
    [0x50, 0x52, 3, 0, 1, 1, 3, 0, 0, 0],
    [0x50, 0x52, 2, 1, 1, 0, 0, 0, 0, 0],
];

// Its factory facts: the value by feature 0 of part 5 is part 7, and part 7 is in class 0.
pub(crate) const FACTORY: [[u8; 6]; 2] = [[0x50, 0x46, 2, 5, 0, 7], [0x50, 0x46, 1, 7, 0, 0]];

// Its site facts: part 8 is in class 2, and the value by feature 3 of part 7 is part 9.
pub(crate) const SITE: [[u8; 6]; 2] = [[0x50, 0x53, 1, 8, 2, 0], [0x50, 0x53, 2, 7, 3, 9]];

// Two chains of values, by features 4 and then 15: from class 0 into 2 and then 4, from class 1 into 3 and then 5; and
// nothing is in both 4 and 5.
pub(crate) const CHAINS: [[u8; 10]; 5] = [
    [0x50, 0x52, 3, 0, 2, 1, 4, 0, 0, 0],
    [0x50, 0x52, 3, 2, 4, 1, 15, 0, 0, 0],
    [0x50, 0x52, 3, 1, 3, 1, 4, 0, 0, 0],
    [0x50, 0x52, 3, 3, 5, 1, 15, 0, 0, 0],
    [0x50, 0x52, 2, 5, 4, 0, 0, 0, 0, 0],
];

// Part 3 begins both chains, and none of its values is told.
pub(crate) const CHAINED: [[u8; 6]; 2] = [[0x50, 0x46, 1, 3, 0, 0], [0x50, 0x53, 1, 3, 1, 0]];

// The audit of the input writes just the text; no text is refused for want of room in 8,192 bytes.
pub(crate) fn check(rt: &impl Abort, input: &[u8], text: &str) {
    let mut out = [0; 8192];
    assert_eq!(rt; audit(input, &mut out), Ok(text.len()), "of {text}");
    assert!(rt; out.starts_with(text.as_bytes()), "of {text}");
}
