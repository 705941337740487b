//! The head of the report.

ghost use Rattle.std.specs.Prelude.{◌≡◌, ◌++◌, slice_get, OnErr, OnOk};
ghost use Rattle.listing.specs.Head.{counts_line, head, is_taken_stable, period_line, stable_line, stable_lines};
ghost use Rattle.listing.specs.Text.{HasPart};

use crate::count::counts_of;
use crate::names::{net_at, net_piece};
use crate::piece::{Piece, add_line};
use flat_circuit::Circuit;
use scald_base::{AssertSpec, Bytes, NoMemory};

/// Appends to `out` the line with the version of the drawing's language and the period, in ticks.
/// If memory runs out, a part of the line may stand there.
#[tactic(auto, unfolding(crate::specs::Head::period_line))]
pub fn write_period(c: &Circuit, version: u8, out: &mut Bytes) -> Result<(), NoMemory>
    ensures ok { OnOk result (out.new ≡ out.old ++ period_line version c.now) }
    ensures err { OnErr result (HasPart out.old out.new (period_line version c.now)) }
{
    add_line(
        out,
        &[
            Piece::Text(b"SCALD "),
            Piece::Number(u64::from(version)),
            Piece::Text(b" PERIOD "),
            Piece::Number(u64::from(c.header().period())),
        ],
    )
}

/// The line that counts nets, instances with an output, and checkers, each bit by itself.
#[tactic(auto, unfolding(crate::specs::Head::counts_line))]
fn add_counts(out: &mut Bytes, c: &Circuit) -> Result<(), NoMemory>
    ensures ok { OnOk result (out.new ≡ out.old ++ counts_line c.now) }
    ensures err { OnErr result (HasPart out.old out.new (counts_line c.now)) }
{
    let counts = counts_of(c);
    add_line(
        out,
        &[
            Piece::Text(b"NETS "),
            Piece::Number(u64::from(counts.nets)),
            Piece::Text(b" INSTANCES "),
            Piece::Number(u64::from(counts.outputs)),
            Piece::Text(b" CHECKS "),
            Piece::Number(u64::from(counts.checkers)),
        ],
    )
}

/// Whether nothing drives the net and nothing is asserted of it.
fn is_taken_stable(c: &Circuit, net: u32) -> bool
    ensures { result ≡ is_taken_stable (slice_get c.now.nets net) }
{
    match c.net(net) {
        Some(found) => found.driver.is_none()
            && matches!(found.spec.or(&AssertSpec::None), AssertSpec::None),
        None => false,
    }
}

/// The line of a net that is taken for constant: one that nothing drives and of which nothing is
/// asserted. Other nets have none.
#[tactic(auto, unfolding(crate::specs::Head::stable_line))]
fn add_stable(out: &mut Bytes, c: &Circuit, net: u32) -> Result<(), NoMemory>
    ensures ok { OnOk result (out.new ≡ out.old ++ stable_line c.now net) }
    ensures err { OnErr result (HasPart out.old out.new (stable_line c.now net)) }
{
    if is_taken_stable(c, net) {
        add_line(out, &[Piece::Text(b"STABLE "), net_piece(c, net)])
    } else {
        Ok(())
    }
}

/// The lines of the nets that are taken for constant, in name order.
fn add_stables(out: &mut Bytes, c: &Circuit) -> Result<(), NoMemory>
    ensures ok { OnOk result (out.new ≡ out.old ++ stable_lines c.now) }
    ensures err { OnErr result (HasPart out.old out.new (stable_lines c.now)) }
{
    c.known();
    for place in 0..c.net_count() {
        add_stable(out, c, net_at(c, place))?;
    }
    Ok(())
}

/// Puts the head of the report at the end of `out`: the line with the version of the drawing's
/// language and the period in ticks, the line that counts the bits of nets, of instances with an
/// output and of checkers, and a line for each net that nothing drives and of which nothing is
/// asserted, in name order. If memory runs out, a part of these lines may stand there.
pub fn begin_report(c: &Circuit, version: u8, out: &mut Bytes) -> Result<(), NoMemory>
    ensures ok { OnOk result (out.new ≡ out.old ++ head version c.now) }
    ensures err { OnErr result (HasPart out.old out.new (head version c.now)) }
{
    write_period(c, version, out)?;
    add_counts(out, c)?;
    add_stables(out, c)
}
