//! The labels of rows.

ghost use Rattle.std.specs.Prelude.{◌≡◌, ◌++◌, ◌≤◌, IfOk, OnOk, map};
ghost use Rattle.draw_report.specs.Element.{words_text};
ghost use Rattle.draw_report.specs.Paper.{Adds};
ghost use Rattle.draw_report.specs.Row.{bits_text, label, shown, shown_length};

use crate::name::{bit_at, text_at};
use crate::paper::{Paper, Piece as Part};
use crate::row::Row;
use fixpoint_engine::wire_behind;
use flat_circuit::{Circuit, Pin, Target};
use listing::{Piece, add_pieces};
use scald_base::{Bytes, List, NoMemory};
use std::alloc::Global;

/// How many bytes of a label are shown.
pub const LONGEST: usize = 40;

/// How many bytes are shown of a longer one, after two dots.
const END: usize = 38;

/// The bit of a row, or its bits from the lowest to the highest.
fn add_bits(out: &mut Bytes, low: u16, high: u16) -> Result<(), NoMemory>
    ensures { OnOk result (out.new ≡ out.old ++ bits_text low high) }
{
    let low_piece = Piece::Number(u64::from(low));
    if low == high {
        add_pieces(out, &[low_piece])
    } else {
        add_pieces(
            out,
            &[low_piece, Piece::Text(b":"), Piece::Number(u64::from(high))],
        )
    }
}

/// Puts the label of a row at the end.
fn add_label(out: &mut Bytes, c: &Circuit, row: Row) -> Result<(), NoMemory>
    ensures { OnOk result (out.new ≡ out.old ++ label c.now row) }
{
    let last = row.to.saturating_sub(1);
    add_pieces(out, &[Piece::Text(text_at(c, row.from)), Piece::Text(b"<")])?;
    add_bits(out, bit_at(c, row.from), bit_at(c, last))?;
    out.push(b'>')
}

/// The label of a row: the name, and its bit or its bits.
fn label_of(alloc: Global, c: &Circuit, row: Row) -> Result<Bytes, NoMemory>
    ensures { IfOk result (λ text. text ≡ label c.now row) }
{
    let mut text = Bytes::new(alloc);
    add_label(&mut text, c, row)?;
    Ok(text)
}

/// The labels of rows.
pub fn labels_of(alloc: Global, c: &Circuit, rows: &[Row]) -> Result<List<Bytes>, NoMemory>
    ensures { IfOk result (λ labels. labels ≡ map (label c.now) rows.now) }
{
    let mut labels = List::new(alloc);
    for row in rows {
        labels.push(label_of(alloc, c, *row)?)?;
    }
    Ok(labels)
}

/// What is shown of a label: all of it, or its end where it is long.
pub fn put_shown(out: &mut Paper, label: &[u8])
    ensures { Adds out.old out.new (words_text (shown label.now)) }
{
    if label.len() <= LONGEST {
        out.put(&[Part::Text(label)]);
    } else {
        out.put(&[Part::Markup(b".."), Part::Text(&label[label.len() - END..])]);
    }
}

/// How many bytes are shown of a label.
pub fn shown_length(label: &[u8]) -> usize
    ensures { result ≡ shown_length label.now }
{
    label.len().min(LONGEST)
}

/// How many digits a bit has.
fn digit_count(bit: u16) -> usize
    ensures { result ≤ 5 }
{
    match bit {
        0..=9 => 1,
        10..=99 => 2,
        100..=999 => 3,
        1000..=9999 => 4,
        _ => 5,
    }
}

/// How many bytes are shown of the label of a row from a bit up to the net at a place.
fn shown_of(c: &Circuit, low: u16, place: u32) -> usize
    ensures { result ≤ 40 }
{
    let high = bit_at(c, place);
    let more = if low == high {
        0
    } else {
        1 + digit_count(high)
    };
    let bits = 2 + digit_count(low) + more;
    text_at(c, place).len().saturating_add(bits).min(LONGEST)
}

/// How many bytes are shown of the longest label that rows of these nets may have, and at least
/// eight.
pub fn longest_label(c: &Circuit) -> usize
    ensures { result ≤ 40 }
{
    let mut longest: usize = 8;
    let mut low = 0;
    for place in 0..c.net_count() {
        if place == 0 || text_at(c, place) != text_at(c, place - 1) {
            low = bit_at(c, place);
        }
        longest = longest.max(shown_of(c, low, place));
    }
    longest
}

/// How many bytes the name of a net has with its bit.
fn net_length(c: &Circuit, net: u32) -> usize {
    match c.net(net) {
        Some(found) => {
            let bit = 2 + digit_count(found.bit);
            found.name.as_slice().len().saturating_add(bit)
        }
        None => 0,
    }
}

/// How many bytes are shown of the label of a pin: its net, complemented or not, and the delay of
/// its wire.
pub fn pin_length(c: &Circuit, pin: Pin) -> usize
    ensures { result ≤ 40 }
{
    let on = match pin.target {
        Target::Net(net) => net_length(c, net),
        Target::Constant(_) => 1,
    };
    let sign: usize = if pin.inverted { 1 } else { 0 };
    let wire = wire_behind(c, pin.target);
    let after = if wire.max == 0 {
        0
    } else {
        7 + digit_count(wire.min) + digit_count(wire.max)
    };
    on.saturating_add(sign + after).min(LONGEST)
}
