//! The pieces of a macro's text. Each function puts its piece at the end of `out`; its one error is
//! that memory ran out.

ghost use Rattle.std.specs.Prelude.{◌≡◌, ◌+◌, ◌∷◌, ◌++◌, ◌==◌, [], IfOk, OnOk, Some, codes, decimal, if◌then◌else◌};
ghost use Rattle.drawing_tree.specs.Canonical.{connection_text, formal_text, last_text, quoted, range_text, signal_text, term_text};
ghost use Rattle.netlist_import.specs.Body.{connection_of, formal_range, last_of, number, range_in, run_of, runs_from, runs_text, signal, term_of, with_next};

use crate::nets::{Net, Wired};
use itoa::Buffer;
use scald_base::{Bytes, NoMemory};

/// A number.
pub(crate) fn add_number(out: &mut Bytes, number: usize) -> Result<(), NoMemory>
    ensures { OnOk result (out.new ≡ out.old ++ decimal number) }
{
    out.extend(Buffer::new().format(number).as_bytes())
}

/// What stands before an item: `before` if it is the first, else a comma.
pub(crate) fn add_separator(out: &mut Bytes, is_some: bool, before: &[u8]) -> Result<(), NoMemory>
    ensures { OnOk result (out.new ≡ out.old ++ (if is_some then codes ", " else before.now)) }
{
    if is_some {
        out.extend(b", ")
    } else {
        out.extend(before)
    }
}

/// The end of the outputs, if there are some.
pub(crate) fn close_outputs(out: &mut Bytes, is_some: bool) -> Result<(), NoMemory>
    ensures { OnOk result (out.new ≡ out.old ++ (if is_some then codes ")" else [])) }
{
    if is_some {
        return out.push(b')');
    }
    Ok(())
}

/// A name in quotes.
pub(crate) fn add_quoted(out: &mut Bytes, name: &[u8]) -> Result<(), NoMemory>
    ensures { OnOk result (out.new ≡ out.old ++ quoted name.now) }
{
    out.push(b'"')?;
    out.extend(name)?;
    out.push(b'"')
}

/// The last index of bits, if it is another than the first.
#[tactic(auto, unfolding(drawing_tree::specs::ExpressionText::condition_text))]
fn add_last(out: &mut Bytes, first: usize, last: usize) -> Result<(), NoMemory>
    ensures { OnOk result (out.new ≡ out.old ++ last_text (last_of first last)) }
{
    if first == last {
        return Ok(());
    }
    out.push(b':')?;
    add_number(out, last)
}

/// The bits from one index down to another.
#[tactic(auto, unfolding(drawing_tree::specs::ExpressionText::condition_text))]
fn add_range(out: &mut Bytes, first: usize, last: usize) -> Result<(), NoMemory>
    ensures { OnOk result (out.new ≡ out.old
        ++ range_text (Some (record { first = number first; last = last_of first last }))) }
{
    out.push(b'<')?;
    add_number(out, first)?;
    add_last(out, first, last)?;
    out.push(b'>')
}

/// A port of a macro.
pub(crate) fn add_formal(out: &mut Bytes, name: &[u8], width: usize) -> Result<(), NoMemory>
    ensures { OnOk result (out.new ≡ out.old
        ++ formal_text (record { base = name.now; range = formal_range width })) }
{
    add_quoted(out, name)?;
    if width > 1 {
        add_range(out, width - 1, 0)?;
    }
    Ok(())
}

/// The bits of a net from one index down to another. A net of one bit has no index.
fn add_bits(out: &mut Bytes, net: &Net, first: usize, last: usize) -> Result<(), NoMemory>
    ensures { OnOk result (out.new ≡ out.old
        ++ signal_text (signal net.now.name) (range_in net.now first last)) }
{
    add_quoted(out, net.name.as_slice())?;
    if net.width > 1 {
        add_range(out, first, last)?;
    }
    Ok(())
}

/// What a term of a connection stands for.
#[derive(Clone, Copy)]
pub(crate) enum Run {
    Zero,
    One,
    /// Bits of the net with this number, from an index down to another.
    Bits(usize, usize, usize),
}

/// The term of one bit.
fn run_of(wired: Wired) -> Run
    ensures { result ≡ run_of wired }
{
    match wired {
        Wired::Zero => Run::Zero,
        Wired::One => Run::One,
        Wired::Bit(wire) => Run::Bits(wire.net, wire.index, wire.index),
    }
}

/// Whether an index is the next one down.
fn is_next(index: usize, next: usize) -> bool
    ensures { result ≡ (index == next + 1) }
{
    index > next && index - next == 1
}

/// The term with a bit more at its end, if that is the next one down.
fn with_next(run: Run, wired: Wired) -> Option<Run>
    ensures { result ≡ with_next run wired }
{
    match (run, wired) {
        (Run::Bits(net, first, last), Wired::Bit(wire)) => {
            if wire.net == net && is_next(last, wire.index) {
                Some(Run::Bits(net, first, wire.index))
            } else {
                None
            }
        }
        _ => None,
    }
}

/// A term. There is none of a net that is not there: it would be written as ZERO.
fn add_run(out: &mut Bytes, nets: &[Net], run: Run) -> Result<(), NoMemory>
    ensures { OnOk result (out.new ≡ out.old ++ term_text (term_of nets.now run)) }
{
    match run {
        Run::Zero => out.extend(b"ZERO"),
        Run::One => out.extend(b"ONE"),
        Run::Bits(net, first, last) => match nets.get(net) {
            Some(net) => add_bits(out, net, first, last),
            None => out.extend(b"ZERO"),
        },
    }
}

/// The term with which a connection goes on after a bit. A term that ends there is written: what is
/// left is the text of the terms from the new one on.
fn next_run(out: &mut Bytes, nets: &[Net], run: Run, wired: Wired) -> Result<Run, NoMemory>
    ensures { IfOk result (λ next. (rest : _) →
        out.old ++ runs_text nets.now (runs_from run (wired ∷ rest))
        ≡ out.new ++ runs_text nets.now (runs_from next rest)) }
{
    if let Some(longer) = with_next(run, wired) {
        return Ok(longer);
    }
    add_run(out, nets, run)?;
    out.extend(b" & ")?;
    Ok(run_of(wired))
}

/// The terms of a connection that goes on with a term.
fn add_runs(out: &mut Bytes, nets: &[Net], first: Run, rest: &[Wired]) -> Result<(), NoMemory>
    ensures { OnOk result (out.new ≡ out.old ++ runs_text nets.now (runs_from first rest.now)) }
{
    let mut run = first;
    let mut left = rest;
    'bits: while let [wired, more @ ..] = left {
        run = next_run(out, nets, run, *wired)?;
        left = more;
    }
    add_run(out, nets, run)
}

/// The terms of a connection.
pub(crate) fn add_connection(out: &mut Bytes, nets: &[Net], wires: &[Wired]) -> Result<(), NoMemory>
    ensures { OnOk result (out.new ≡ out.old
        ++ connection_text (connection_of nets.now wires.now)) }
{
    match wires {
        [] => Ok(()),
        [first, rest @ ..] => add_runs(out, nets, run_of(*first), rest),
    }
}
