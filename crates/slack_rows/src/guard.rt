//! Edges of clocks that guard windows.

ghost use Rattle.std.specs.Prelude.{◌*◌, ◌+◌, ◌<◌, ◌≤◌, ◌^◌};
ghost use Rattle.critical_paths.specs.Tick.{IsWithin, most_tick};

use crate::window::Window;
use scald_base::List;

/// More ticks than any path to a window takes.
const FAR: u64 = 0x1000_0000_0000;

/// A window, and the ideal edge that its clock comes from.
#[derive(Clone, Copy)]
pub struct Guard {
    pub window: Window,
    pub net: u32,
    pub ideal: i64,
    ghost near: { IsWithin (2 ^ 44) ideal × IsWithin most_tick window.from
        × IsWithin most_tick window.to },
}

/// Edges, in the order of their windows.
pub type Guards = List<Guard>;

impl Guard {
    ghost use Rattle.std.specs.Prelude.{◌≡◌, Some};
    ghost use Rattle.std.specs.Option.{option_map};
    ghost use Rattle.slack_rows.specs.Sides.{guard_by, guarded};

    /// A window and an edge, unless that is too far.
    pub fn at(window: Window, net: u32, ideal: i64) -> Option<Guard>
        requires from { IsWithin most_tick window.from }
        requires to { IsWithin most_tick window.to }
        ensures { option_map guarded result ≡ guard_by window (Some (net, ideal)) }
    {
        if ideal.unsigned_abs() <= FAR {
            Some(Guard { window, net, ideal })
        } else {
            None
        }
    }
}
