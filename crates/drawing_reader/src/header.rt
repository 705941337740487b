//! The header of a drawing, once its numbers are judged.

ghost use Rattle.std.specs.Prelude.{◌≡◌, ◌⊎◌, true, Ok, SomeIff};
ghost use Rattle.drawing_grammar.specs.Header.{is_clock, is_bounds, is_skew, natural, pair_of, bounds_of, refused_at, judged_pair, judged};

use drawing_grammar::{NumberPair, WrittenHeader};
use scald_base::{Delay, Header, Place, Refusal, RefusalKind};

/// The header, or `BadHeader` at the first token of the first statement that has a number which is
/// refused: the version is neither 1 nor 2; units or ticks are 0, or their product is outside 2 to
/// 4,096; a wire bound's least is above its greatest, or that above 4,095; a skew is above 4,095.
pub fn judged_header(written: &WrittenHeader) -> Result<Header, Refusal>
    ensures { result ≡ judged written.now }
{
    if written.version < 1 || written.version > 2 {
        return Err(refused(written.place));
    }
    let Some((units, ticks)) = clock(written.clock) else {
        return Err(refused(written.clock.place));
    };
    let wire = wire(written.wire)?;
    let pskew = skew(written.pskew)?;
    let cskew = skew(written.cskew)?;
    Ok(Header {
        units,
        ticks,
        wire,
        pskew,
        cskew,
    })
}

/// The version of a header whose numbers are judged.
pub fn version_of(written: &WrittenHeader) -> u8
    ensures { (natural written.now.version ≡ 1) ⊎ (natural written.now.version ≡ 2) →
        result ≡ natural written.now.version }
{
    if written.version == 2 {
        return 2;
    }
    1
}

fn refused(place: Place) -> Refusal
    ensures { result ≡ refused_at place }
{
    Refusal {
        kind: RefusalKind::BadHeader,
        place,
    }
}

/// Units and ticks.
fn clock(pair: NumberPair) -> Option<(u16, u16)>
    ensures is { SomeIff result (is_clock pair.first pair.second ≡ true)
        (natural pair.first, natural pair.second) }
{
    match pair.first.checked_mul(pair.second) {
        Some(period) if pair.first >= 1 && pair.second >= 1 && period >= 2 && period <= 4096 => {
            Some((pair.first as u16, pair.second as u16))
        }
        _ => None,
    }
}

/// The bounds of wires, 0:0 if none are written.
fn wire(written: Option<NumberPair>) -> Result<Delay, Refusal>
    ensures { result ≡ judged_pair is_bounds written (Ok (bounds_of written)) }
{
    let Some(pair) = written else {
        return Ok(Delay { min: 0, max: 0 });
    };
    if pair.first < 0 || pair.first > pair.second || pair.second > 4095 {
        return Err(refused(pair.place));
    }
    Ok(Delay {
        min: pair.first as u16,
        max: pair.second as u16,
    })
}

/// A skew, 0:0 if none is written.
fn skew(written: Option<NumberPair>) -> Result<(u16, u16), Refusal>
    ensures { result ≡ judged_pair is_skew written (Ok (pair_of written)) }
{
    let Some(pair) = written else {
        return Ok((0, 0));
    };
    let range = 0..=4095;
    if !range.contains(&pair.first) || !range.contains(&pair.second) {
        return Err(refused(pair.place));
    }
    Ok((pair.first as u16, pair.second as u16))
}
