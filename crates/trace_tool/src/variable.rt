//! The lines that declare variables.

ghost use Rattle.std.specs.Prelude.{◌≡◌, ◌++◌, ◌-◌, ◌<◌, ◌≤◌, ℕ, true, false, length, IfOk, OnOk};
ghost use Rattle.trace_tool.specs.Name.{name_of};
ghost use Rattle.trace_tool.specs.Variable.{bracketed, is_first, is_last, is_named, is_scalar, later_name, later_reference, more_bits, one_bit, precedes, range_text, stretch_reference, variable_line};

use crate::code::add_code;
use crate::name::{base_of, bit_at, text_at};
use crate::reference::{add_reference, add_word};
use crate::stretch::Stretch;
use flat_circuit::Circuit;
use listing::{Piece, add_pieces};
use scald_base::{Bytes, NoMemory};
use std::alloc::Global;
use std::cmp::Ordering;

/// Whether it is the first stretch of its name.
fn is_first(c: &Circuit, s: Stretch) -> bool
    ensures { result ≡ is_first c.now s }
{
    s.from == 0 || text_at(c, s.from - 1) != text_at(c, s.from)
}

/// Whether it is the last stretch of its name.
fn is_last(c: &Circuit, s: Stretch) -> bool
    ensures { result ≡ is_last c.now s }
{
    text_at(c, s.to) != text_at(c, s.from)
}

/// Whether the name at a place comes before another text.
fn precedes(c: &Circuit, place: u32, text: &[u8]) -> bool
    ensures { result ≡ precedes c.now place text.now }
{
    matches!(text_at(c, place).cmp(text), Ordering::Less)
}

/// The first place whose name does not come before a text, or the number of places.
fn first_from(c: &Circuit, text: &[u8]) -> u32
    ensures within { result ≤ length c.now.nets }
    ensures before { (k : ℕ) → k < result → precedes c.now k text.now ≡ true }
    ensures after { (k : ℕ) → result ≤ k → k < length c.now.nets →
        precedes c.now k text.now ≡ false }
{
    c.known();
    let mut low = 0;
    let mut high = c.net_count();
    while low < high {
        let middle = low + (high - low) / 2;
        if precedes(c, middle, text) {
            low = middle + 1;
        } else {
            high = middle;
        }
    }
    low
}

/// Whether a net has this name.
fn is_named(c: &Circuit, text: &[u8]) -> bool
    ensures { result ≡ is_named c.now text.now }
{
    c.known();
    let place = first_from(c, text);
    place < c.net_count() && text_at(c, place) == text
}

/// A name, and after it `_` and a number.
fn add_later(out: &mut Bytes, low: u16) -> Result<(), NoMemory>
    ensures { OnOk result (out.new ≡ later_name out.old low) }
{
    add_pieces(out, &[Piece::Text(b"_"), Piece::Number(u64::from(low))])
}

/// Whether a net has the name of another, with `_` and a number after it.
fn is_taken(alloc: Global, c: &Circuit, text: &[u8], low: u16) -> Result<bool, NoMemory>
    ensures { IfOk result (λ taken. taken ≡ is_named c.now (later_name text.now low)) }
{
    let mut name = Bytes::of(alloc, text)?;
    add_later(&mut name, low)?;
    Ok(is_named(c, name.as_slice()))
}

/// A base with a number in brackets.
fn add_bracketed(out: &mut Bytes, base: &[u8], low: u16) -> Result<(), NoMemory>
    ensures { OnOk result (out.new ≡ out.old ++ bracketed base.now low) }
{
    out.push(b'\\')?;
    add_word(out, base)?;
    add_pieces(
        out,
        &[
            Piece::Text(b"<"),
            Piece::Number(u64::from(low)),
            Piece::Text(b">"),
        ],
    )
}

/// The reference of a stretch that is not the first of its name.
fn add_later_reference(
    alloc: Global,
    out: &mut Bytes,
    c: &Circuit,
    s: Stretch,
) -> Result<(), NoMemory>
    ensures { OnOk result (out.new ≡ out.old ++ later_reference c.now s) }
{
    let text = text_at(c, s.from);
    let low = bit_at(c, s.from);
    if is_taken(alloc, c, text, low)? {
        add_bracketed(out, base_of(text), low)
    } else {
        add_reference(out, base_of(text))?;
        add_later(out, low)
    }
}

/// The reference of a stretch.
fn add_stretch(alloc: Global, out: &mut Bytes, c: &Circuit, s: Stretch) -> Result<(), NoMemory>
    ensures { OnOk result (out.new ≡ out.old ++ stretch_reference c.now s) }
{
    if is_first(c, s) {
        add_reference(out, base_of(text_at(c, s.from)))
    } else {
        add_later_reference(alloc, out, c, s)
    }
}

/// Whether bit 0 is the only one of the stretch's name.
fn is_scalar(c: &Circuit, s: Stretch) -> bool
    ensures { result ≡ is_scalar c.now s }
{
    is_last(c, s) && bit_at(c, s.from) == 0
}

/// The range of one bit.
fn add_bit(out: &mut Bytes, low: u16) -> Result<(), NoMemory>
    ensures { OnOk result (out.new ≡ out.old ++ one_bit low) }
{
    add_pieces(
        out,
        &[
            Piece::Text(b" ["),
            Piece::Number(u64::from(low)),
            Piece::Text(b"]"),
        ],
    )
}

/// The range of several bits.
fn add_bits(out: &mut Bytes, low: u16, width: u32) -> Result<(), NoMemory>
    ensures { OnOk result (out.new ≡ out.old ++ more_bits low width) }
{
    let high = (u64::from(low) + u64::from(width)).saturating_sub(1);
    add_pieces(
        out,
        &[
            Piece::Text(b" ["),
            Piece::Number(high),
            Piece::Text(b":"),
            Piece::Number(u64::from(low)),
            Piece::Text(b"]"),
        ],
    )
}

/// The range of a stretch, if it has one.
fn add_range(out: &mut Bytes, c: &Circuit, s: Stretch) -> Result<(), NoMemory>
    ensures { OnOk result (out.new ≡ out.old ++ range_text c.now s) }
{
    let width = s.width();
    let low = bit_at(c, s.from);
    if width != 1 {
        add_bits(out, low, width)
    } else if is_first(c, s) && !is_scalar(c, s) {
        add_bit(out, low)
    } else {
        Ok(())
    }
}

/// The line that declares the variable of a stretch.
#[tactic(auto, unfolding(crate::specs::Variable::variable_line))]
pub fn add_variable(alloc: Global, out: &mut Bytes, c: &Circuit, s: Stretch) -> Result<(), NoMemory>
    ensures { OnOk result (out.new ≡ out.old ++ variable_line c.now s) }
{
    let width = Piece::Number(u64::from(s.width()));
    add_pieces(out, &[Piece::Text(b"$var wire "), width, Piece::Text(b" ")])?;
    add_code(out, s.number)?;
    out.push(b' ')?;
    add_stretch(alloc, out, c, s)?;
    add_range(out, c, s)?;
    out.extend(b" $end\n")
}
