//! Sections over devices that fail, and the statuses of all outcomes.

use crate::devices::{calls_of, one_word};
use crate::rows::{expect, expect_eq};
use scald_base::{Bytes, CallEnd, MemorySink, MemorySource, Place, Refusal, RefusalKind};
use section_compose::{SectionsOutcome, sections_main, sections_status};
use std::process::Abort;

/// Two empty drawings.
const TWO: &[u8] = b"SCALD 1;\nCLOCK 8 x 50;\nDRAWING ROW;\nEND;
=====
SCALD 1;\nCLOCK 8 x 50;\nDRAWING ROW;\nEND;\n";

/// Over devices of which these calls fail the call has this outcome, and writes something or
/// nothing.
fn ends(
    rt: &(impl Abort + AllocGlobal),
    name: &str,
    (reads, writes): (Option<u32>, Option<u32>),
    want: SectionsOutcome,
    is_written: bool,
) {
    let alloc = rt.alloc();
    let text = Bytes::of(alloc, TWO).expect(rt, name);
    let mut source = MemorySource::new(text, 4096, calls_of(rt, reads));
    let mut sink = MemorySink::new(alloc, 16_384, 4096, calls_of(rt, writes)).expect(rt, name);
    let outcome = sections_main(alloc, &one_word(rt, b"sections"), &mut source, &mut sink);
    expect_eq(rt, name, &outcome, &want);
    expect(rt, name, sink.taken().is_empty() != is_written);
}

#[test]
fn section_devices(rt: HostRuntime) {
    let read = SectionsOutcome::Ended(CallEnd::ReadFault);
    let write = SectionsOutcome::Ended(CallEnd::WriteFault);
    ends(
        &rt,
        "no failure",
        (None, None),
        SectionsOutcome::Clean,
        true,
    );
    ends(&rt, "a read fails", (Some(0), None), read, false);
    ends(&rt, "a write fails", (None, Some(0)), write, false);
}

/// An outcome of each kind, in the order of their statuses.
#[test]
fn statuses(rt: HostRuntime) {
    let refusal = Refusal {
        kind: RefusalKind::Syntax,
        place: Place { line: 1, col: 1 },
    };
    let outcomes = [
        SectionsOutcome::Clean,
        SectionsOutcome::Faulty(2),
        SectionsOutcome::Refused {
            section: 1,
            refusal,
        },
        SectionsOutcome::Unsettled {
            section: 1,
            net: 0,
            round: 9,
        },
        SectionsOutcome::Ended(CallEnd::BadWords(0)),
        SectionsOutcome::Ended(CallEnd::TooLong),
        SectionsOutcome::Ended(CallEnd::ReadFault),
        SectionsOutcome::Ended(CallEnd::WriteFault),
        SectionsOutcome::Ended(CallEnd::NoMemory),
        SectionsOutcome::BadCount(1),
        SectionsOutcome::BadSection {
            section: 2,
            rule: 24,
            net: 0,
        },
    ];
    for number in 0..outcomes.len() {
        let status = sections_status(&outcomes[number]);
        expect_eq(&rt, "a status", &status, &(number as u8));
    }
}
