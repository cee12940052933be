// Inputs that are cut, too long or in another order, and facts that stand twice.
use crate::making::{FACTORY, RULES, SITE, check};
use std::process::Abort;
use std::test::Fail;

// The audit of the book writes just the line wherever its last record, of so many bytes, is cut.
fn check_cuts(rt: &impl Abort, book: &[u8], size: usize, line: &str) {
    assert!(rt; size <= book.len());
    for missing in 1..size {
        check(rt, &book[..book.len() - missing], line);
    }
}

#[test]
fn each_prefix_of_a_book(rt: HostRuntime) -> Result<(), Fail> {
    // each record, and the report of the book that ends with it
    let records: [(&[u8], &str); 6] = [
        (&RULES[0], "rules 1\nfacts 0\nstands\n"),
        (&RULES[1], "rules 2\nfacts 0\nstands\n"),
        (&FACTORY[0], "rules 2\nfacts 1\nstands\n"),
        (&FACTORY[1], "rules 2\nfacts 2\nclash part 7 row 1 word 3\n"),
        (&SITE[0], "rules 2\nfacts 3\nclash part 7 row 1 word 3\n"),
        (&SITE[1], "rules 2\nfacts 4\nclash part 9 row 1 word\n"),
    ];
    let mut book = Vec::new(rt.alloc());
    check(&rt, &book, "rules 0\nfacts 0\nstands\n");
    for (index, (record, report)) in records.into_iter().enumerate() {
        book.extend_from_slice(record)?;
        let line = format!(in rt.alloc(); "refused 12 record {index}\n")?;
        check_cuts(&rt, &book, record.len(), &line);
        check(&rt, &book, report);
    }
    Ok(())
}

#[test]
fn inputs_of_32767_and_32768_bytes(rt: HostRuntime) -> Result<(), Fail> {
    let mut input = RULES.as_flattened().to_vec(rt.alloc())?;
    for class in 0..22u8 {
        for part in 0..=255u8 {
            input.extend_from_slice(&[0x50, 0x46, 1, part, class, 0])?;
        }
    }
    input.truncate(32768);
    check(&rt, &input, "refused 15 record 0\n");
    input.truncate(32767);
    check(&rt, &input, "refused 12 record 5459\n");
    Ok(())
}

#[test]
fn groups_in_every_order(rt: HostRuntime) -> Result<(), Fail> {
    let rules = RULES.as_flattened();
    let factory = FACTORY.as_flattened();
    let site = SITE.as_flattened();
    for (groups, text) in [
        (
            [rules, factory, site],
            "rules 2\nfacts 4\nclash part 9 row 1 word\n",
        ),
        ([rules, site, factory], "refused 13 record 4\n"),
        ([factory, rules, site], "refused 13 record 2\n"),
        ([factory, site, rules], "refused 13 record 4\n"),
        ([site, rules, factory], "refused 13 record 2\n"),
        ([site, factory, rules], "refused 13 record 2\n"),
    ] {
        check(&rt, &groups.concat(rt.alloc())?, text);
    }
    Ok(())
}

#[test]
fn only_a_repeated_factory_fact_is_refused(rt: HostRuntime) {
    let counted = "rules 0\nfacts 2\nstands\n";
    for (marks, text) in [
        ([0x46, 0x46, 0x46], "refused 14 record 2\n"),
        ([0x46, 0x46, 0x53], counted),
        ([0x46, 0x53, 0x53], counted),
        ([0x53, 0x53, 0x53], counted),
    ] {
        let [first, other, again] = marks;
        let facts = [
            [0x50, first, 1, 7, 0, 0],
            [0x50, other, 2, 7, 0, 0],
            [0x50, again, 1, 7, 0, 0],
        ];
        check(&rt, facts.as_flattened(), text);
    }
}
