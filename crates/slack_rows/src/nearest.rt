//! Which edge of a clock a launch is for.

ghost use Rattle.std.specs.Prelude.{◌≡◌, ◌*◌, ◌+◌, ◌<◌, ◌≤◌, ◌^◌, ◌+ℤ◌, ◌-ℤ◌, ◌≤ℤ◌, int_lt, pos};
ghost use Rattle.std.specs.Int.{int_rem_euclid};
ghost use Rattle.critical_paths.specs.Tick.{IsWithin, most_tick};
ghost use Rattle.slack_rows.specs.Arrived.{distance_of, edge_for, first_tick, is_nearer as is_nearer_than, moved_by};
ghost use Rattle.slack_rows.specs.Way.{since_last as since_last_edge, until_next as until_next_edge};

use crate::guard::Guard;
use critical_paths::Corner;

/// A launch, in a period of so many ticks. At the late end of data it is for the first edge after
/// it, at the early end for the last edge not after it.
#[derive(Clone, Copy)]
pub struct Launch {
    pub period: u16,
    pub tick: i64,
    pub corner: Corner,
    ghost near: { (0 < period) × (period ≤ 4096) × IsWithin (2 ^ 46) tick },
}

/// How long after one tick another one comes.
fn apart(from: i64, to: i64) -> i64
    requires from { IsWithin most_tick from }
    requires to { IsWithin most_tick to }
    ensures is { result ≡ to -ℤ from }
    ensures near { IsWithin (2 * most_tick) result }
{
    to - from
}

/// The tick so many ticks after one.
fn later(tick: i64, ticks: i64) -> i64
    requires tick { IsWithin most_tick tick }
    requires ticks { IsWithin most_tick ticks }
    ensures { result ≡ tick +ℤ ticks }
{
    tick + ticks
}

/// The next tick.
fn next(tick: i64) -> i64
    requires { IsWithin most_tick tick }
    ensures { result ≡ tick +ℤ pos 1 }
{
    tick + 1
}

/// How many ticks are left when whole periods are taken off.
fn in_period(period: u16, ticks: i64) -> i64
    requires { 0 < period }
    ensures is { result ≡ int_rem_euclid ticks (pos period) }
    ensures from { pos 0 ≤ℤ result }
    ensures to { result ≤ℤ pos period }
{
    ticks.rem_euclid(i64::from(period))
}

/// How long after one tick the first one comes that is whole periods from another.
fn after(period: u16, from: i64, tick: i64) -> i64
    requires some { 0 < period }
    requires from { IsWithin most_tick from }
    requires tick { IsWithin most_tick tick }
    ensures is { result ≡ int_rem_euclid (tick -ℤ from) (pos period) }
    ensures from { pos 0 ≤ℤ result }
    ensures to { result ≤ℤ pos period }
{
    in_period(period, apart(from, tick))
}

/// The first tick from one on that is whole periods from another.
pub fn first_tick(period: u16, from: i64, tick: i64) -> i64
    requires some { 0 < period }
    requires from { IsWithin most_tick from }
    requires tick { IsWithin most_tick tick }
    ensures is { result ≡ first_tick period from tick }
    ensures from { from ≤ℤ result }
{
    later(from, after(period, from, tick))
}

impl Launch {
    /// How long after it an edge comes next that comes once a period.
    fn until_next(self, edge: i64) -> i64
        requires edge { IsWithin (2 ^ 44) edge }
        ensures is { result ≡ until_next_edge self.period self.tick edge }
        ensures near { IsWithin 4097 result }
    {
        next(after(self.period, next(self.tick), edge))
    }

    /// How long before it such an edge came last, which may be its own.
    fn since_last(self, edge: i64) -> i64
        requires edge { IsWithin (2 ^ 44) edge }
        ensures is { result ≡ since_last_edge self.period self.tick edge }
        ensures near { IsWithin 4097 result }
    {
        after(self.period, edge, self.tick)
    }
}

/// Whether one number is less than another.
fn is_less(number: i64, than: i64) -> bool
    ensures { result ≡ int_lt number than }
{
    number < than
}

impl Guard {
    /// How far from a launch the edge lies that the launch is for, of this one in every period.
    fn distance(self, launch: Launch) -> i64
        ensures is { result ≡ distance_of launch.corner launch.period launch.tick self.ideal }
        ensures near { IsWithin 4097 result }
    {
        match launch.corner {
            Corner::Late => launch.until_next(self.ideal),
            Corner::Early => launch.since_last(self.ideal),
        }
    }

    /// Whether it is an edge of the same clock, and nearer to a launch.
    pub fn is_nearer(self, launch: Launch, than: Guard) -> bool
        ensures { result ≡ is_nearer_than launch.corner launch.period launch.tick than self }
    {
        self.net == than.net && is_less(self.distance(launch), than.distance(launch))
    }

    /// The tick of the edge that a launch is for, of this one in every period.
    fn edge_for(self, launch: Launch) -> i64
        ensures is { result ≡ edge_for launch.corner launch.period launch.tick self.ideal }
        ensures near { IsWithin (2 ^ 47) result }
    {
        match launch.corner {
            Corner::Late => later(launch.tick, self.distance(launch)),
            Corner::Early => apart(self.distance(launch), launch.tick),
        }
    }

    /// By how many ticks, which are whole periods, it is moved to be that edge.
    pub fn moved(self, launch: Launch) -> i64
        ensures is { result ≡ moved_by launch.corner launch.period launch.tick self.ideal }
        ensures near { IsWithin (2 ^ 47 + 2 ^ 44) result }
    {
        apart(self.ideal, self.edge_for(launch))
    }
}
