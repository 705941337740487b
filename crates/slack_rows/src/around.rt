//! What the regions of changes about a window come to.

ghost use Rattle.std.specs.Prelude.{◌≡◌, ◌<◌, ◌+◌, ◌^◌, true, Some, if◌then◌else◌};
ghost use Rattle.std.specs.Option.{option_or};
ghost use Rattle.slack_rows.specs.Launched.{are_two, side_by as side_by_launches};
ghost use Rattle.slack_rows.specs.Views.{counts_first, counts_last, is_two, meets_window, side_in};

use critical_paths::Region;

/// Where a region lies about a window, and for what of it it counts that meets it.
#[derive(Clone, Copy)]
pub enum Side {
    /// It ends before the window begins.
    Before,
    /// It ends too late.
    Late,
    /// It begins too early.
    Early,
    /// Either, which is not known.
    Either,
    /// The rest of one launch and the begin of the next.
    Two,
    /// It begins after the window ends.
    After,
}

/// By their launches before the clock, of a region that covers a window or lies in it: the last
/// change and the first.
pub fn side_by(last: Option<i64>, first: Option<i64>) -> Side
    ensures side { side_in result ≡ side_by_launches last first }
    ensures two { is_two result ≡ are_two last first }
    ensures met { meets_window result ≡ true }
{
    let (Some(last), Some(first)) = (last, first) else {
        return Side::Either;
    };
    if last > 0 {
        if first > 0 { Side::Late } else { Side::Either }
    } else if first > 0 {
        Side::Two
    } else {
        Side::Early
    }
}

/// The last region that counts before a window, and the first that counts after it; how many meet
/// it, and one that two launches make.
#[derive(Clone, Copy)]
pub struct Around {
    pub last: Option<Region>,
    pub first: Option<Region>,
    pub met: u32,
    pub two: Option<Region>,
}

impl Around {
    /// No regions.
    pub const NONE: Around = Around {
        last: None,
        first: None,
        met: 0,
        two: None,
    };

    /// With the next region.
    pub fn with(self, region: Region, side: Side) -> Around
        requires { self.met < 2 ^ 31 }
        ensures last { result.last ≡ (if counts_last side then Some region else self.last) }
        ensures first { result.first
            ≡ (if counts_first side then option_or self.first (Some region) else self.first) }
        ensures met { result.met ≡ (if meets_window side then self.met + 1 else self.met) }
        ensures two { result.two ≡ (if is_two side then Some region else self.two) }
    {
        let met = self.met + 1;
        let here = Some(region);
        let first = self.first.or(here);
        match side {
            Side::Before => Around { last: here, ..self },
            Side::Late => Around {
                last: here,
                met,
                ..self
            },
            Side::Early => Around { first, met, ..self },
            Side::Either => Around {
                last: here,
                first,
                met,
                ..self
            },
            Side::Two => Around {
                last: here,
                first,
                met,
                two: here,
            },
            Side::After => Around { first, ..self },
        }
    }
}
