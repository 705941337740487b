//! The lines that stand in place of a report.

ghost use Rattle.std.specs.Prelude.{◌≡◌, ◌++◌, ◌<◌, length, OnErr, OnOk};
ghost use Rattle.listing.specs.Answer.{refusal_line, summary_line, unsettled_line};
ghost use Rattle.listing.specs.Text.{HasPart};

use crate::count::counts_of;
use crate::names::{net_at, net_piece};
use crate::piece::{Piece, add_line};
use flat_circuit::Circuit;
use scald_base::{Bytes, NoMemory, Refusal};

/// Puts the line of a refused text at the end of `out`: the number and the name of the refusal's
/// kind, and its line and column. If memory runs out, a part of the line may stand there.
#[tactic(auto, unfolding(crate::specs::Answer::refusal_line))]
pub fn write_refusal(refusal: &Refusal, out: &mut Bytes) -> Result<(), NoMemory>
    ensures ok { OnOk result (out.new ≡ out.old ++ refusal_line refusal.now) }
    ensures err { OnErr result (HasPart out.old out.new (refusal_line refusal.now)) }
{
    add_line(
        out,
        &[
            Piece::Text(b"REFUSED "),
            Piece::Number(u64::from(refusal.kind.number())),
            Piece::Text(b" "),
            Piece::Text(refusal.kind.name().as_bytes()),
            Piece::Text(b" "),
            Piece::Number(u64::from(refusal.place.line)),
            Piece::Text(b":"),
            Piece::Number(u64::from(refusal.place.col)),
        ],
    )
}

/// Appends to `out` the line of rounds that do not settle: the net at the place `net`, from
/// 0, in name order, and the round at the limit. If memory runs out, a part of the line may
/// stand there.
#[tactic(auto, unfolding(crate::specs::Answer::unsettled_line))]
pub fn write_unsettled(c: &Circuit, net: u32, round: u32, out: &mut Bytes) -> Result<(), NoMemory>
    requires { net < length c.now.order }
    ensures ok { OnOk result (out.new ≡ out.old ++ unsettled_line c.now net round) }
    ensures err { OnErr result (HasPart out.old out.new (unsettled_line c.now net round)) }
{
    add_line(
        out,
        &[
            Piece::Text(b"UNSETTLED "),
            net_piece(c, net_at(c, net)),
            Piece::Text(b" ROUND "),
            Piece::Number(u64::from(round)),
        ],
    )
}

/// Puts the line of the numbers of a report at the end of `out`, for a circuit of so many sections:
/// its bits of nets, of instances with an output and of checkers, the rounds of its base, the tick
/// from which on its waves hold, and how many faults it has. If memory runs out, a part of the
/// line may stand there.
#[tactic(auto, unfolding(crate::specs::Answer::summary_line))]
pub fn write_summary(
    c: &Circuit,
    sections: u16,
    base: u32,
    tick: u64,
    faults: u32,
    out: &mut Bytes,
) -> Result<(), NoMemory>
    ensures ok { OnOk result (out.new ≡ out.old ++ summary_line c.now sections base tick faults) }
    ensures err { OnErr result
        (HasPart out.old out.new (summary_line c.now sections base tick faults)) }
{
    let counts = counts_of(c);
    add_line(
        out,
        &[
            Piece::Text(b"BENCH "),
            Piece::Number(u64::from(sections)),
            Piece::Text(b" NETS "),
            Piece::Number(u64::from(counts.nets)),
            Piece::Text(b" INSTANCES "),
            Piece::Number(u64::from(counts.outputs)),
            Piece::Text(b" CHECKS "),
            Piece::Number(u64::from(counts.checkers)),
            Piece::Text(b" ROUNDS "),
            Piece::Number(u64::from(base)),
            Piece::Text(b" T "),
            Piece::Number(tick),
            Piece::Text(b" FAULTS "),
            Piece::Number(u64::from(faults)),
        ],
    )
}
