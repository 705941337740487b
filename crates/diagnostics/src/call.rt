//! What is wrong with the words of a call.

use crate::lines::Lines;
use crate::lines::Part::{Number, Quoted, Shown};
use crate::near::is_near;
use crate::text::part;
use scald_base::{Bytes, Words};
use std::alloc::Global;

/// The words that a form begins with.
const COMMANDS: [&[u8]; 16] = [
    b"verify", b"notes", b"format", b"upgrade", b"slack", b"explain", b"margins", b"chains",
    SECTIONS, b"decide", b"run", b"vcd", b"judge", b"draw", b"import", b"bench",
];

const SECTIONS: &[u8] = b"sections";

/// A number of a form: what it is called, and the least and the greatest that it may be.
#[derive(Clone, Copy)]
struct Bounds(&'static [u8], u64, u64);

/// What words go on with: with one of these words, if with any; with a number; with a tick of this
/// name and at least so many; or with one of these words, of which `case=` has a number of its own.
#[derive(Clone, Copy)]
enum Next {
    Word(&'static [&'static [u8]]),
    Number(Bounds),
    Tick(&'static [u8], u64),
    Case(Bounds, &'static [&'static [u8]]),
}

/// The numbers that stand after a word.
const NUMBERED: [(&[u8], Bounds); 5] = [
    (b"rounds=", Bounds(b"N", 1, 10_000_000)),
    (b"worst=", Bounds(b"N", 1, 65_536)),
    (CASE, Bounds(b"K", 1, 256)),
    (b"effort=", Bounds(b"N", 1, 1000)),
    (b"trace=", Bounds(b"I", 1, 4_294_967_295)),
];

/// The front of the word for a case.
const CASE: &[u8] = b"case=";

/// The front of the word for the length of a tick.
const TICK: &[u8] = b"tick=";

/// The word for more ticks.
const LONG: &[u8] = b"long";

/// The most ticks, without that word and with it.
const MOST_TICKS: [u64; 2] = [4096, 1_048_576];

const SEEDS: Bounds = Bounds(b"SEED", 0, u64::MAX);

/// What a form goes on with, by its command and how many words stand after that.
const FORMS: [(&[u8], usize, Next); 23] = [
    (
        b"verify",
        0,
        Next::Word(&[b"waves", b"faults", b"rounds=N"]),
    ),
    (b"verify", 1, Next::Word(&[b"rounds=N"])),
    (b"slack", 0, Next::Word(&[b"worst=N", b"rounds=N"])),
    (b"slack", 1, Next::Word(&[b"rounds=N"])),
    (b"explain", 0, Next::Word(&[b"worst=N", b"rounds=N"])),
    (b"explain", 1, Next::Word(&[b"rounds=N"])),
    (b"decide", 0, Next::Word(&[b"effort=N", b"trace=I"])),
    (b"decide", 1, Next::Word(&[b"trace=I"])),
    (b"run", 0, Next::Tick(b"T", 1)),
    (b"run", 1, Next::Number(SEEDS)),
    (b"run", 2, Next::Word(&[b"case=K", LONG])),
    (b"run", 3, Next::Word(&[LONG])),
    (b"vcd", 0, Next::Number(Bounds(b"T", 1, 4096))),
    (b"vcd", 1, Next::Number(SEEDS)),
    (b"vcd", 2, Next::Word(&[b"case=K", b"tick=1ns"])),
    (b"vcd", 3, Next::Word(&[b"tick=1ns"])),
    (b"judge", 0, Next::Tick(b"F", 0)),
    (b"judge", 1, Next::Word(&[LONG])),
    (
        b"draw",
        0,
        Next::Case(
            Bounds(b"K", 0, 256),
            &[b"faults", b"waves", b"case=K", b"worst=N", b"rounds=N"],
        ),
    ),
    (b"draw", 1, Next::Word(&[b"rounds=N"])),
    (b"draw", 2, Next::Word(&[b"rounds=N"])),
    (b"import", 0, Next::Word(&[b"cells"])),
    (b"bench", 0, Next::Number(Bounds(b"N", 1, 200))),
];

/// Whether one of these words has this front.
fn has_front(words: &[Bytes], front: &[u8]) -> bool {
    for word in words {
        if word.as_slice().starts_with(front) {
            return true;
        }
    }
    false
}

/// Whether one of these words is the last of its form.
fn is_ended(words: &[Bytes]) -> bool {
    has_front(words, b"rounds=") || has_front(words, TICK) || has_front(words, LONG)
}

/// Whether a page of waves is asked for, of which a path may leave out some.
fn are_waves(command: &[u8], others: &[Bytes]) -> bool {
    match others {
        [shown] => command == b"draw".as_slice() && shown.as_slice() == b"waves".as_slice(),
        _ => false,
    }
}

/// What the words go on with that begin a form.
fn next_of(words: &[Bytes]) -> Next {
    let [first, others @ ..] = words else {
        return Next::Word(&COMMANDS);
    };
    if are_waves(first.as_slice(), others) {
        return Next::Word(&[b"under=PATH", b"rounds=N"]);
    }
    for (command, count, next) in &FORMS {
        if first.as_slice() == *command && others.len() == *count && !is_ended(others) {
            return *next;
        }
    }
    Next::Word(&[])
}

/// The part of a word before its first `=`.
fn key_of(word: &[u8]) -> &[u8] {
    let end = word.iter().take_while(|byte| **byte != b'=').count();
    part(word, 0, end)
}

/// Which numbers there may be.
fn add_bounds(out: &mut Lines, bounds: Bounds) {
    let Bounds(name, least, most) = bounds;
    out.fill(
        b": % is % to %, without zeros in front",
        &[Shown(name), Number(least), Number(most)],
    );
}

/// Which ticks there may be.
fn add_ticks(out: &mut Lines, name: &'static [u8], least: u64) {
    let [most, longest] = MOST_TICKS;
    out.fill(
        b": % is % to %, or with long last to %, without zeros in front",
        &[Shown(name), Number(least), Number(most), Number(longest)],
    );
}

/// The word that is meant, the bounds of its number, or how a file is read.
fn add_meant(out: &mut Lines, words: &[&'static [u8]], word: &[u8]) {
    for meant in words {
        if !is_near(key_of(word), key_of(meant)) || word == *meant {
            continue;
        }
        for (front, bounds) in &NUMBERED {
            if word.starts_with(front) {
                return add_bounds(out, *bounds);
            }
        }
        if word.starts_with(TICK) {
            return out.put(b": a tick is 1, 10 or 100 s, ms, us, ns, ps or fs, as in tick=10us");
        }
        return out.fill(b": is % meant?", &[Shown(meant)]);
    }
    if word.contains(&b'.') || word.contains(&b'/') {
        out.put(b": a drawing is read from standard input, as in scald verify <FILE");
    }
}

/// What is wrong with the word of this number, from 0, if no form begins with the words up to
/// it: it is another, or it is missing.
pub fn explain_words(alloc: Global, words: &Words, number: u32) -> Lines {
    let mut out = Lines::new(alloc);
    let count = (number as usize).min(words.len());
    let before = &words.as_slice()[..count];
    match (before.last(), words.get(count)) {
        (None, None) => return out,
        (Some(last), None) => {
            let last = Quoted(last.as_slice());
            out.fill(b"scald: a word is missing after %", &[last]);
        }
        (None, Some(word)) => {
            let word = word.as_slice();
            out.fill(b"scald: unknown command %", &[Quoted(word)]);
            add_meant(&mut out, &COMMANDS, word);
        }
        (Some(last), Some(word)) => {
            let word = word.as_slice();
            let parts = [Quoted(word), Quoted(last.as_slice())];
            out.fill(b"scald: % cannot come after %", &parts);
            match next_of(before) {
                Next::Word(words) => add_meant(&mut out, words, word),
                Next::Number(bounds) => add_bounds(&mut out, bounds),
                Next::Tick(name, least) => add_ticks(&mut out, name, least),
                Next::Case(bounds, _) if word.starts_with(CASE) => add_bounds(&mut out, bounds),
                Next::Case(_, words) => add_meant(&mut out, words, word),
            }
        }
    }
    out.put(b"\n");
    out
}

/// Whether the words set a limit of rounds.
pub fn sets_limit(words: &Words) -> bool {
    has_front(words.as_slice(), b"rounds=")
}
