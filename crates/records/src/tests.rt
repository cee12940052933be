// What reading a file of rule records gives, on examples.
use crate::Fault;
use crate::reading::{read_draft, read_rules};
use std::alloc::{AllocError, Global};
use std::process::Abort;
use std::test::Fail;
use terms::refusal::Refusal;

const SUBCLASS: [u8; 10] = [0x50, 0x52, 1, 3, 4, 0, 0, 0, 0, 0];

fn refused(rt: &impl Abort, bytes: &[u8], refusal: Refusal, index: usize) -> Result<(), Fail> {
    assert_eq!(rt; read_draft(bytes).err(), Some(Fault { refusal, index }));
    Ok(())
}

fn taken(rt: &impl Abort, bytes: &[u8], records: usize) -> Result<(), Fail> {
    read_draft(bytes)?;
    assert_eq!(rt; read_rules(bytes)?.records, records);
    Ok(())
}

#[test]
fn empty_file(rt: HostRuntime) -> Result<(), Fail> {
    taken(&rt, b"", 0)
}

#[test]
fn whole_record(rt: HostRuntime) -> Result<(), Fail> {
    taken(&rt, &SUBCLASS, 1)
}

#[test]
fn lone_byte(rt: HostRuntime) -> Result<(), Fail> {
    refused(&rt, &SUBCLASS[0..1], Refusal::RecordCut, 0)
}

#[test]
fn cut_record(rt: HostRuntime) -> Result<(), Fail> {
    refused(&rt, &SUBCLASS[0..9], Refusal::RecordCut, 0)
}

#[test]
fn wrong_mark(rt: HostRuntime) -> Result<(), Fail> {
    refused(
        &rt,
        &[0x50, 0x52, 1, 3, 4, 0, 0, 0, 0, 0, 0x50, 0x53],
        Refusal::MarkNotAllowed,
        1,
    )
}

#[test]
fn class_too_high(rt: HostRuntime) -> Result<(), Fail> {
    refused(
        &rt,
        &[
            0x50, 0x52, 1, 3, 4, 0, 0, 0, 0, 0, 0x50, 0x52, 1, 64, 4, 0, 0, 0, 0, 0,
        ],
        Refusal::ClassTooHigh,
        1,
    )
}

// The record again and again, as many bytes as are asked for.
fn repeated(heap: Global, length: usize) -> Result<Vec<u8>, AllocError> {
    SUBCLASS.iter().copied().cycle().take(length).collect(heap)
}

#[test]
fn full_draft(rt: HostRuntime) -> Result<(), Fail> {
    taken(&rt, &repeated(rt.alloc(), 2560)?, 256)?;
    refused(&rt, &repeated(rt.alloc(), 2570)?, Refusal::DraftFull, 256)
}

#[test]
fn long_file(rt: HostRuntime) -> Result<(), Fail> {
    refused(&rt, &repeated(rt.alloc(), 32767)?, Refusal::DraftFull, 256)?;
    refused(&rt, &repeated(rt.alloc(), 32768)?, Refusal::InputTooLong, 0)
}
