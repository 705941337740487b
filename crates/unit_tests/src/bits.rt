//! Ranges and connections, on the values that a drawing has.

use crate::rows::{expect, expect_eq};
use scald_base::List;
use std::process::Abort;
use vector_names::{BitRef, Bits, Target, VectorFault, bits_of, complement, concat, spread};

/// The name of a row, the first and the last number of a range, and its numbers.
type RangeRow = (&'static str, i64, i64, Result<&'static [u16], VectorFault>);

const BAD: Result<&[u16], VectorFault> = Err(VectorFault::BadRange);

const RANGES: [RangeRow; 8] = [
    ("upwards", 0, 3, Ok(&[0, 1, 2, 3])),
    ("downwards", 3, 1, Ok(&[3, 2, 1])),
    ("one bit", 7, 7, Ok(&[7])),
    ("the last bits", 65_534, 65_535, Ok(&[65_534, 65_535])),
    ("before the first bit", -1, 3, BAD),
    ("past the last bit", 65_535, 65_536, BAD),
    ("257 bits upwards", 0, 256, BAD),
    ("257 bits downwards", 256, 0, BAD),
];

/// Looks at the numbers of a row's range.
fn is_range(rt: &(impl Abort + AllocGlobal), (name, first, last, want): RangeRow) {
    match bits_of(rt.alloc(), first, last) {
        Ok(numbers) => expect_eq(rt, name, &Ok(numbers.as_slice()), &want),
        Err(fault) => expect_eq(rt, name, &Err(fault), &want),
    }
}

#[test]
fn ranges(rt: HostRuntime) {
    for row in &RANGES {
        is_range(&rt, *row);
    }
}

/// How many bits a range has.
fn range_len(rt: &impl AllocGlobal, first: i64, last: i64) -> Option<usize> {
    match bits_of(rt.alloc(), first, last) {
        Ok(numbers) => Some(numbers.len()),
        Err(_) => None,
    }
}

#[test]
fn the_widest_range(rt: HostRuntime) {
    expect_eq(&rt, "upwards", &range_len(&rt, 1, 256), &Some(256));
    expect_eq(&rt, "downwards", &range_len(&rt, 255, 0), &Some(256));
}

/// So many bits.
fn bits(rt: &(impl Abort + AllocGlobal), count: u32) -> Bits {
    let mut bits = List::new(rt.alloc());
    for i in 0..count {
        let bit = BitRef {
            target: Target::Net(i),
            inverted: false,
        };
        bits.push(bit).expect(rt, "the bits");
    }
    bits
}

/// How many bits there are.
fn len_of(bits: Result<Bits, VectorFault>) -> Option<usize> {
    match bits {
        Ok(bits) => Some(bits.len()),
        Err(_) => None,
    }
}

/// How many bits there are if so many stand before so many others.
fn joined_len(rt: &(impl Abort + AllocGlobal), one: u32, other: u32) -> Option<usize> {
    let (one, other) = (bits(rt, one), bits(rt, other));
    len_of(concat(rt.alloc(), &one, &other))
}

/// How many bits there are if so many are spread to a width.
fn spread_len(rt: &(impl Abort + AllocGlobal), count: u32, width: u16) -> Option<usize> {
    len_of(spread(rt.alloc(), &bits(rt, count), width))
}

#[test]
fn joins_and_spreads(rt: HostRuntime) {
    expect_eq(&rt, "256 bits", &joined_len(&rt, 100, 156), &Some(256));
    expect_eq(&rt, "257 bits", &joined_len(&rt, 100, 157), &None);
    expect_eq(&rt, "of one bit", &spread_len(&rt, 1, 4), &Some(4));
    expect_eq(&rt, "of as many", &spread_len(&rt, 4, 4), &Some(4));
    expect_eq(&rt, "of fewer", &spread_len(&rt, 3, 4), &None);
}

#[test]
fn complements(rt: HostRuntime) {
    let mut two = bits(&rt, 2);
    complement(&mut two);
    let all = two.as_slice().iter().all(|bit| bit.inverted);
    expect(&rt, "each bit", all);
}
