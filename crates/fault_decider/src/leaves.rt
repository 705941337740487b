//! The line of a refutation.

ghost use Rattle.std.specs.Prelude.{◌≡◌, ◌++◌, OnOk, codes};
ghost use Rattle.std.specs.List.{flat_map, list_all};
ghost use Rattle.fault_decider.specs.Lines.{are_told as told_singly, is_of_net, joined, leaf_text, part_text, refuted_text};

use flat_circuit::Circuit;
use listing::{Piece, add_line, add_pieces, net_piece};
use narrowing::{Part, Parts};
use scald_base::{Bytes, NoMemory};

/// The most narrowings that are listed one by one.
const MOST_TOLD: usize = 8;

/// Whether all parts are of nets.
fn are_of_nets(parts: &[Part]) -> bool
    ensures { result ≡ list_all is_of_net parts.now }
{
    for part in parts {
        if !matches!(part, Part::Constant { .. }) {
            return false;
        }
    }
    true
}

/// Whether the narrowings are listed one by one.
fn are_told(leaves: &[Parts]) -> bool
    ensures { result ≡ told_singly leaves.now }
{
    if leaves.len() > MOST_TOLD {
        return false;
    }
    for parts in leaves {
        if !are_of_nets(parts.as_slice()) {
            return false;
        }
    }
    true
}

/// The bit of a net.
fn add_part(out: &mut Bytes, c: &Circuit, part: Part) -> Result<(), NoMemory>
    ensures { OnOk result (out.new ≡ out.old ++ part_text c.now part) }
{
    let Part::Constant { net, one } = part else {
        return Ok(());
    };
    let bit: &[u8] = if one { b"1" } else { b"0" };
    add_pieces(
        out,
        &[net_piece(c, net), Piece::Text(b"="), Piece::Text(bit)],
    )
}

/// The bit of a net, after others.
#[tactic(auto, using(listing::proofs::Parts::ok_second))]
fn add_other_part(out: &mut Bytes, c: &Circuit, part: Part) -> Result<(), NoMemory>
    ensures { OnOk result (out.new ≡ out.old ++ (codes " & " ++ part_text c.now part)) }
{
    out.extend(b" & ")?;
    add_part(out, c, part)
}

/// The bits of nets, after one.
fn add_other_parts(out: &mut Bytes, c: &Circuit, parts: &[Part]) -> Result<(), NoMemory>
    ensures { OnOk result (out.new
        ≡ out.old ++ flat_map (λ p. codes " & " ++ part_text c.now p) parts.now) }
{
    for part in parts {
        add_other_part(out, c, *part)?;
    }
    Ok(())
}

/// The bits of a narrowing.
#[tactic(auto, using(listing::proofs::Parts::ok_second))]
fn add_parts(out: &mut Bytes, c: &Circuit, parts: &[Part]) -> Result<(), NoMemory>
    ensures { OnOk result (out.new ≡ out.old ++ leaf_text c.now parts.now) }
{
    let [first, others @ ..] = parts else {
        return Ok(());
    };
    add_part(out, c, *first)?;
    add_other_parts(out, c, others)
}

/// A narrowing, after others.
#[tactic(auto, using(listing::proofs::Parts::ok_second))]
fn add_other(out: &mut Bytes, c: &Circuit, parts: &[Part]) -> Result<(), NoMemory>
    ensures { OnOk result (out.new ≡ out.old ++ (codes ", " ++ leaf_text c.now parts.now)) }
{
    out.extend(b", ")?;
    add_parts(out, c, parts)
}

/// Narrowings, after one.
fn add_others(out: &mut Bytes, c: &Circuit, leaves: &[Parts]) -> Result<(), NoMemory>
    ensures { OnOk result (out.new
        ≡ out.old ++ flat_map (λ parts. codes ", " ++ leaf_text c.now parts) leaves.now) }
{
    for parts in leaves {
        add_other(out, c, parts.as_slice())?;
    }
    Ok(())
}

/// Narrowings, one by one.
#[tactic(auto, using(listing::proofs::Parts::ok_second))]
fn add_told(out: &mut Bytes, c: &Circuit, leaves: &[Parts]) -> Result<(), NoMemory>
    ensures { OnOk result (out.new
        ≡ out.old ++ joined (codes ", ") (leaf_text c.now) leaves.now) }
{
    let [first, others @ ..] = leaves else {
        return Ok(());
    };
    add_parts(out, c, first.as_slice())?;
    add_others(out, c, others)
}

/// The line of a refutation from a tick on, by these narrowings.
pub fn add_refuted(
    out: &mut Bytes,
    c: &Circuit,
    from: u64,
    leaves: &[Parts],
) -> Result<(), NoMemory>
    ensures { OnOk result (out.new ≡ out.old ++ refuted_text c.now from leaves.now) }
{
    add_pieces(
        out,
        &[
            Piece::Text(b"REFUTED FROM "),
            Piece::Number(from),
            Piece::Text(b" BY "),
        ],
    )?;
    if are_told(leaves) {
        add_told(out, c, leaves)?;
        return out.push(b'\n');
    }
    add_line(
        out,
        &[
            Piece::Number(leaves.len() as u64),
            Piece::Text(b" NARROWINGS"),
        ],
    )
}
