// Books that clash or stand because of one record, or whatever the group of their facts.
use crate::making::{CHAINED, CHAINS, check};
use std::test::Fail;

#[test]
fn a_clash_after_two_untold_values_needs_each_rule(rt: HostRuntime) -> Result<(), Fail> {
    for index in 0..5 {
        let records = [
            CHAINS[..index].as_flattened(),
            CHAINS[index + 1..].as_flattened(),
            CHAINED.as_flattened(),
        ];
        check(
            &rt,
            &records.concat(rt.alloc())?,
            "rules 4\nfacts 2\nstands\n",
        );
    }
    Ok(())
}

// Parts of class 0 that agree on feature 0 are one; the value by feature 1 of class 1 is in class 2; nothing is in both 2
// and 3.
const KEYED: [[u8; 10]; 3] = [
    [0x50, 0x52, 5, 0, 0, 1, 0, 0, 0, 0],
    [0x50, 0x52, 3, 1, 2, 1, 1, 0, 0, 0],
    [0x50, 0x52, 2, 2, 3, 0, 0, 0, 0, 0],
];

// Parts 1 and 2 are in class 0, part 2 is in class 1, the value by feature 1 of part 1 is part 5, which is in class 3; and
// the value by feature 0 of parts 1 and 2 is part 9.
const AGREEING: [[u8; 6]; 7] = [
    [0x50, 0x46, 1, 1, 0, 0],
    [0x50, 0x46, 1, 2, 0, 0],
    [0x50, 0x46, 1, 2, 1, 0],
    [0x50, 0x46, 2, 1, 1, 5],
    [0x50, 0x46, 1, 5, 3, 0],
    [0x50, 0x46, 2, 1, 0, 9],
    [0x50, 0x46, 2, 2, 0, 9],
];

// Their report with those rules.
const REPORT: &str = "rules 3\nfacts 7\nclash part 5 row 2 word\n";

#[test]
fn a_clash_that_only_a_key_brings(rt: HostRuntime) -> Result<(), Fail> {
    let book = [KEYED.as_flattened(), AGREEING.as_flattened()].concat(rt.alloc())?;
    check(&rt, &book, REPORT);
    check(&rt, &book[10..], "rules 2\nfacts 7\nstands\n");
    Ok(())
}

#[test]
fn an_untold_value_is_no_agreement(rt: HostRuntime) -> Result<(), Fail> {
    for (told, text) in [
        (6, "rules 3\nfacts 6\nstands\n"),
        (5, "rules 3\nfacts 5\nstands\n"),
    ] {
        let book = [KEYED.as_flattened(), AGREEING[..told].as_flattened()];
        check(&rt, &book.concat(rt.alloc())?, text);
    }
    Ok(())
}

#[test]
fn facts_of_the_factory_and_of_the_site_say_the_same(rt: HostRuntime) -> Result<(), Fail> {
    let mut facts = AGREEING;
    for place in (0..7).rev() {
        facts[place][1] = 0x53;
        let book = [KEYED.as_flattened(), facts.as_flattened()].concat(rt.alloc())?;
        check(&rt, &book, REPORT);
    }
    Ok(())
}
