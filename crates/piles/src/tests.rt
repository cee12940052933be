// Stores at their bounds, and piles of them.
use crate::{tell_over_table, tell_table};
use image::sound;
use image::store::ImageStore;
use std::test::Fail;
use stores::additions::Additions;
use stores::calls::tell;
use stores::pile::{Tried, pile_two, try_fact, unpile_two};
use stores::row::RowStore;
use stores::store::Store;
use stores::told::Told;
use terms::fact::Fact;
use terms::kind::FactKind;
use terms::refusal::Refusal;

// The tests of `cabinet` have such a helper too: one for both would be a public call that only tests use.
fn in_class(part: u8, class: u8) -> Fact {
    Fact {
        kind: FactKind::InClass as u8,
        first: part,
        second: class,
        third: 0,
    }
}

#[test]
fn a_table_of_no_rows(rt: HostRuntime) {
    let mut rows = [Fact::default(); 0];
    let mut store = RowStore::open(&mut rows);
    assert_eq!(rt; store.free(), 0);
    assert_eq!(rt; store.tell(in_class(1, 2)), Err(Refusal::NoFreePlace));
    assert_eq!(rt; store.tell(in_class(1, 64)), Err(Refusal::ClassTooHigh));
    assert_eq!(rt; store.at(0), None);
}

#[test]
fn a_table_of_more_than_65536_rows(rt: HostRuntime) -> Result<(), Fail> {
    let mut rows = vec![in rt.alloc(); Fact::default(); 65537]?;
    let mut store = RowStore::open(&mut rows);
    assert_eq!(rt; store.free(), 65536);
    assert_eq!(rt; store.tell(in_class(1, 2)), Ok(Told::Added));
    assert_eq!(rt; store.free(), 65535);
    assert_eq!(rt; store.count(), 1);
    Ok(())
}

#[test]
fn additions_64_and_65(rt: HostRuntime) -> Result<(), Fail> {
    let mut rows = [Fact::default(); 1];
    let mut lower = RowStore::open(&mut rows);
    assert_eq!(rt; lower.tell(in_class(0, 1)), Ok(Told::Added));
    let mut pile = Additions::over(lower);
    assert_eq!(rt; pile.free(), 64);
    for class in 0..64u8 {
        assert_eq!(rt; tell(&mut pile, in_class(9, class)), Ok(Told::Added));
    }
    assert_eq!(rt; pile.free(), 0);
    assert_eq!(rt; pile.count(), 65);
    assert_eq!(rt; tell(&mut pile, in_class(8, 0)), Err(Refusal::NoFreePlace));
    assert_eq!(rt; tell(&mut pile, in_class(9, 63)), Ok(Told::Already));
    assert_eq!(rt;
        tell(&mut pile, in_class(0, 1)),
        Ok(Told::Already),
        "listed below"
    );
    assert_eq!(rt; pile.at(0), Some(in_class(0, 1)));
    assert_eq!(rt; pile.at(64), Some(in_class(9, 63)));
    assert_eq!(rt; pile.at(65), None);
    assert_eq!(rt; pile.into_below().count(), 1);
    Ok(())
}

#[test]
fn additions_over_additions_over_rows(rt: HostRuntime) {
    let mut rows = [Fact::default(); 2];
    let mut store = RowStore::open(&mut rows);
    assert_eq!(rt; store.tell(in_class(1, 1)), Ok(Told::Added));
    let mut pile = pile_two(store);
    assert_eq!(rt; tell(&mut pile, in_class(1, 1)), Ok(Told::Already));
    assert_eq!(rt; tell(&mut pile, in_class(2, 2)), Ok(Told::Added));
    assert_eq!(rt; pile.at(1), Some(in_class(2, 2)));
    assert_eq!(rt; unpile_two(pile).count(), 1);
}

#[test]
fn a_table_once_its_store_has_ended(rt: HostRuntime) {
    let mut rows = [in_class(9, 9); 3];
    let unlawful = in_class(1, 64);
    let told = [in_class(1, 1), unlawful, in_class(2, 2), in_class(1, 1)];
    let answer = tell_over_table(&mut rows, &told, in_class(3, 3));
    assert_eq!(rt; answer, Ok(Told::Added));
    assert_eq!(rt; rows, [in_class(1, 1), in_class(2, 2), in_class(9, 9)]);
    let answer = tell_table(&mut rows, &told, in_class(2, 2));
    assert_eq!(rt; answer, Ok(Told::Already));
    let answer = tell_table(&mut rows, &told, in_class(3, 3));
    assert_eq!(rt; answer, Ok(Told::Added));
    assert_eq!(rt; rows, [in_class(1, 1), in_class(2, 2), in_class(3, 3)]);
}

#[test]
fn a_fact_that_is_only_tried(rt: HostRuntime) {
    let mut rows = [Fact::default(); 2];
    let Tried { store, answer } = try_fact(RowStore::open(&mut rows), in_class(2, 2));
    assert_eq!(rt; answer, Ok(Told::Added));
    assert_eq!(rt; store.count(), 0);
}

// Two records, and others that end the sound part.
const TWO: [u8; 12] = [0x50, 0x46, 1, 7, 0, 0, 0x50, 0x46, 2, 7, 3, 9];

fn three(third: [u8; 6]) -> [u8; 18] {
    let mut bytes = [0; 18];
    bytes[0..12].copy_from_slice(&TWO);
    bytes[12..18].copy_from_slice(&third);
    bytes
}

#[test]
fn sound_parts(rt: HostRuntime) {
    assert_eq!(rt; sound(b"").len(), 0);
    assert_eq!(rt; sound(&TWO).len(), 12);
    assert_eq!(rt; sound(&TWO[0..11]).len(), 6, "a cut record");
    assert_eq!(rt;
        sound(&three([0x50, 0x46, 1, 7, 0, 0])).len(),
        12,
        "a repeated record"
    );
    assert_eq!(rt;
        sound(&three([0x50, 0x53, 1, 8, 0, 0])).len(),
        12,
        "another mark"
    );
    assert_eq!(rt;
        sound(&three([0x50, 0x46, 1, 7, 64, 0])).len(),
        12,
        "an unlawful fact"
    );
    assert_eq!(rt; sound(&three([0x50, 0x46, 3, 7, 8, 0])).len(), 18);
}

// What an image store over the bytes says of its end: its count, the fact at that place, and its free places.
fn image_end(bytes: &[u8]) -> (usize, Option<Fact>, usize) {
    let image = ImageStore::open(bytes);
    (image.count(), image.at(image.count()), image.free())
}

#[test]
fn image_stores(rt: HostRuntime) {
    assert_eq!(rt; image_end(b""), (0, None, 0));
    assert_eq!(rt; image_end(&TWO[0..11]), (1, None, 0), "a cut record");
    let repeated = three([0x50, 0x46, 1, 7, 0, 0]);
    assert_eq!(rt; image_end(&repeated), (2, None, 0), "a repeated record");
    let other_mark = three([0x50, 0x53, 1, 8, 0, 0]);
    assert_eq!(rt; image_end(&other_mark), (2, None, 0), "another mark");
}

#[test]
fn additions_over_an_image(rt: HostRuntime) {
    let image = ImageStore::open(&TWO);
    assert_eq!(rt; image.free(), 0);
    let mut pile = Additions::over(image);
    assert_eq!(rt; tell(&mut pile, in_class(7, 0)), Ok(Told::Already));
    assert_eq!(rt; tell(&mut pile, in_class(7, 1)), Ok(Told::Added));
    assert_eq!(rt; pile.count(), 3);
    assert_eq!(rt; pile.at(2), Some(in_class(7, 1)));
    let mut image = pile.into_below();
    assert_eq!(rt; image.count(), 2);
    assert_eq!(rt; image.tell(in_class(7, 1)), Err(Refusal::NoFreePlace));
    assert_eq!(rt; image.at(2), None);
}
