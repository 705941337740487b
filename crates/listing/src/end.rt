//! The end of the report.

ghost use Rattle.std.specs.Prelude.{◌≡◌, ◌++◌, OnErr, OnOk};
ghost use Rattle.listing.specs.End.{last_line};
ghost use Rattle.listing.specs.Text.{HasPart};

use crate::piece::{Piece, add_line};
use scald_base::{Bytes, NoMemory};

/// Puts the last line of the report at the end of `out`: how many faults there are over all cases,
/// or that there is none. If memory runs out, a part of the line may stand there.
#[tactic(auto, unfolding(crate::specs::End::last_line))]
pub fn end_report(total: u32, out: &mut Bytes) -> Result<(), NoMemory>
    ensures ok { OnOk result (out.new ≡ out.old ++ last_line total) }
    ensures err { OnErr result (HasPart out.old out.new (last_line total)) }
{
    if total == 0 {
        add_line(out, &[Piece::Text(b"CLEAN")])
    } else {
        add_line(
            out,
            &[Piece::Text(b"FAULTS "), Piece::Number(u64::from(total))],
        )
    }
}
