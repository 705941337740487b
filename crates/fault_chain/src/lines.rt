//! The lines of chains.

ghost use Rattle.std.specs.Prelude.{◌≡◌, ◌++◌, OnOk};
ghost use Rattle.std.specs.List.{flat_map};
ghost use Rattle.listing.specs.Piece.{piece_text};
ghost use Rattle.fault_chain.specs.Report.{chain_lines, end_line, end_text, found_line, link_line, number_line};

use crate::chain::{Chain, End, Link};
use flat_circuit::{Circuit, Fault};
use listing::{Piece, add_line, net_piece, write_fault};
use scald_base::{Bytes, NoMemory};

/// The word for the end of a chain.
fn end_piece(end: End) -> Piece<'static>
    ensures { piece_text result ≡ end_text end }
{
    match end {
        End::Level => Piece::Text(b"LEVEL"),
        End::Repeat => Piece::Text(b"REPEAT"),
        End::Undriven => Piece::Text(b"UNDRIVEN"),
        End::Both => Piece::Text(b"BOTH"),
    }
}

/// The line of a link.
#[tactic(auto, unfolding(crate::specs::Report::link_line))]
fn add_link(out: &mut Bytes, c: &Circuit, link: Link) -> Result<(), NoMemory>
    ensures { OnOk result (out.new ≡ out.old ++ link_line c.now link) }
{
    add_line(
        out,
        &[
            Piece::Text(b"LINK "),
            net_piece(c, link.net),
            Piece::Text(b" SLOT "),
            Piece::Number(u64::from(link.slot)),
            Piece::Text(b" VALUE "),
            Piece::Byte(link.value.letter()),
        ],
    )
}

/// The lines of links.
fn add_links(out: &mut Bytes, c: &Circuit, links: &[Link]) -> Result<(), NoMemory>
    ensures { OnOk result (out.new ≡ out.old ++ flat_map (link_line c.now) links.now) }
{
    for link in links {
        add_link(out, c, *link)?;
    }
    Ok(())
}

/// The line of the end.
#[tactic(auto, unfolding(crate::specs::Report::end_line))]
fn add_end(out: &mut Bytes, end: End) -> Result<(), NoMemory>
    ensures { OnOk result (out.new ≡ out.old ++ end_line end) }
{
    add_line(out, &[Piece::Text(b"END "), end_piece(end)])
}

/// The lines of a chain.
pub fn add_chain(out: &mut Bytes, c: &Circuit, chain: &Chain) -> Result<(), NoMemory>
    ensures { OnOk result (out.new ≡ out.old ++ chain_lines c.now chain.now) }
{
    add_links(out, c, chain.links.as_slice())?;
    add_end(out, chain.end)
}

/// The line of a fault, as it stands in the report.
#[tactic(auto, unfolding(crate::specs::Report::found_line))]
pub fn add_fault(out: &mut Bytes, c: &Circuit, fault: &Fault) -> Result<(), NoMemory>
    ensures { OnOk result (out.new ≡ out.old ++ found_line c.now fault.now) }
{
    out.extend(b"FAULT ")?;
    write_fault(c, fault, out)?;
    out.push(b'\n')
}

/// The line of a case, which has its number alone.
#[tactic(auto, unfolding(crate::specs::Report::number_line))]
pub fn add_number(out: &mut Bytes, number: u32) -> Result<(), NoMemory>
    ensures { OnOk result (out.new ≡ out.old ++ number_line number) }
{
    add_line(
        out,
        &[Piece::Text(b"CASE "), Piece::Number(u64::from(number))],
    )
}
