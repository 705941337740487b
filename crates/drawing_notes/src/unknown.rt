//! Nets of which nothing is known in some slot.

ghost use Rattle.std.specs.Prelude.{◌≡◌, ◌<◌, ◌-◌, ◌^◌, ◌∷◌, [], OnOk};
ghost use Rattle.std.specs.List.{filter};
ghost use Rattle.fixpoint_engine.specs.Waves.{FitWaves, waves_of};
ghost use Rattle.drawing_omissions.specs.Lines.{Adds};
ghost use Rattle.drawing_notes.specs.Unknown.{IsCounted, and_net, has_unknown as spec_has_unknown, unknown_in, unknown_line};

use crate::searching::has_unknown;
use drawing_omissions::Notes;
use fixpoint_engine::Waves;
use flat_circuit::Circuit;
use listing::{Piece, net_piece};
use scald_base::NoMemory;
use step_values::Value;
use wave_core::CyclicWave;

/// How many nets were counted, and the first of them.
#[derive(Clone, Copy)]
pub struct Counted {
    /// How many.
    pub count: u32,
    /// The number of the first.
    pub first: Option<u32>,
}

impl Counted {
    /// With a net more, if it counts.
    fn and(self, net: u32, counts: bool) -> Counted
        requires { self.count < 2 ^ 32 - 1 }
        ensures { result ≡ and_net self net counts }
    {
        if !counts {
            return self;
        }
        Counted {
            count: self.count + 1,
            first: match self.first {
                Some(first) => Some(first),
                None => Some(net),
            },
        }
    }
}

/// How many nets have a slot in which nothing is known of them, and the first in name order.
fn count<W: CyclicWave<Item = Value>>(c: &Circuit, waves: &Waves<W>) -> Counted
    requires fit { FitWaves c.now waves.now }
    ensures { IsCounted (filter (spec_has_unknown (waves_of waves.now)) c.now.order) result }
{
    c.known();
    let mut counted = Counted {
        count: 0,
        first: None,
    };
    for place in 0..c.net_count() {
        let net = c.net_at(place);
        counted = counted.and(net, has_unknown(waves.at(net).wave()));
    }
    counted
}

/// The note on a case, by so many nets and the first of them.
#[tactic(auto, unfolding(crate::specs::Unknown::unknown_line))]
fn add_note(
    notes: &mut Notes,
    c: &Circuit,
    number: u32,
    count: u32,
    first: u32,
) -> Result<(), NoMemory>
    ensures { OnOk result (Adds notes.old notes.new (unknown_line c.now number count first ∷ [])) }
{
    notes.add(&[
        Piece::Text(b"NOTE UNKNOWN CASE "),
        Piece::Number(u64::from(number)),
        Piece::Text(b" NETS "),
        Piece::Number(u64::from(count)),
        Piece::Text(b" "),
        net_piece(c, first),
    ])
}

/// Appends the note on one case more, if something is unknown in its waves.
pub(crate) fn add_unknown<W: CyclicWave<Item = Value>>(
    notes: &mut Notes,
    c: &Circuit,
    number: u32,
    waves: &Waves<W>,
) -> Result<(), NoMemory>
    requires fit { FitWaves c.now waves.now }
    ensures { OnOk result (Adds notes.old notes.new
        (unknown_in c.now number (filter (spec_has_unknown (waves_of waves.now)) c.now.order))) }
{
    let counted = count(c, waves);
    match counted.first {
        Some(first) => add_note(notes, c, number, counted.count, first),
        None => Ok(()),
    }
}
