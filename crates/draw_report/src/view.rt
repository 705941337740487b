//! The part of the time line that a picture shows.

ghost use Rattle.std.specs.Prelude.{◌≡◌, ◌+◌, ◌<◌, ◌≤◌, ◌^◌};
ghost use Rattle.draw_report.specs.View.{after_last, line_x, plot, scale, x_of};

/// How wide the plot is at most, in tenths of a pixel.
const PLOT: u32 = 9600;

/// So many slots from a first one on, of a period and with units of so many ticks. Slots and ticks
/// count from 0 on, a whole number of periods after those that a reader sees: `moved` ticks.
#[derive(Clone, Copy)]
pub struct View {
    pub first: u32,
    pub count: u32,
    pub period: u16,
    pub unit: u16,
    pub moved: u32,
}

impl View {
    /// How wide a slot is.
    pub fn scale(self) -> u32
        ensures is { result ≡ scale self }
        ensures small { result ≤ 9600 }
    {
        if self.count == 0 {
            PLOT
        } else {
            (PLOT / self.count).max(1)
        }
    }

    /// How wide the plot is.
    pub fn plot(self) -> u64
        ensures is { result ≡ plot self }
        ensures small { result < 2 ^ 46 }
    {
        u64::from(self.scale()) * u64::from(self.count)
    }

    /// Where a slot of the view begins.
    pub fn x(self, slot: u32) -> u64
        ensures is { result ≡ x_of self slot }
        ensures small { result < 2 ^ 46 }
    {
        u64::from(self.scale()) * u64::from(slot.saturating_sub(self.first))
    }

    /// Where the line of a tick stands.
    pub fn line_x(self, tick: u32) -> u64
        requires { tick < 2 ^ 30 }
        ensures is { result ≡ line_x self tick }
        ensures small { result < 2 ^ 46 }
    {
        self.x(tick + 1)
    }

    /// The slot after the last.
    pub fn after_last(self) -> u32
        requires { self.first + self.count < 2 ^ 30 }
        ensures { result ≡ after_last self }
    {
        self.first + self.count
    }
}
