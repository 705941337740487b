//! Arrivals near the first period.

ghost use Rattle.std.specs.Prelude.{◌≡◌, ◌^◌, ◌+ℤ◌, ◌-ℤ◌, IfSome, is_some, true};
ghost use Rattle.critical_paths.specs.Tick.{IsWithin};
ghost use Rattle.critical_paths.specs.Known.{IsNear};

use crate::arrival::Arrival;

/// More ticks than any way takes on which no net comes twice: there are at most 65,536 nets, and
/// none of them is more than 8,190 ticks after the one before.
const FAR: u64 = 0x4000_0000_0000;

/// When an edge comes to a net, if by a way that is not too long: the tick of the ideal edge, that
/// at the net, and the number of its event.
#[derive(Clone, Copy)]
pub(crate) struct Near {
    pub(crate) ideal: i64,
    pub(crate) tick: i64,
    pub(crate) node: usize,
    ghost near: { IsWithin (2 ^ 46) ideal × IsWithin (2 ^ 46) tick },
}

impl Near {
    /// The arrival of an edge at a tick, unless it is too far.
    fn at(ideal: i64, tick: i64, node: usize) -> Option<Near>
        ensures is { IfSome result (λ near. (near.ideal ≡ ideal) × (near.tick ≡ tick)
            × (near.node ≡ node)) }
        ensures some { IsWithin (2 ^ 46) ideal → IsWithin (2 ^ 46) tick →
            is_some result ≡ true }
    {
        if ideal.unsigned_abs() <= FAR && tick.unsigned_abs() <= FAR {
            Some(Near { ideal, tick, node })
        } else {
            None
        }
    }

    /// The arrival of an edge that lies so many ticks before it.
    pub(crate) fn begun(tick: i64, age: i64) -> Near
        requires tick { IsNear 131072 tick }
        requires age { IsNear 131072 age }
        ensures { (result.ideal ≡ tick -ℤ age) × (result.tick ≡ tick) }
    {
        Near {
            ideal: tick - age,
            tick,
            node: 0,
        }
    }

    /// The tick so many later.
    pub(crate) fn tick_after(self, ticks: i64) -> i64
        requires { IsNear 131072 ticks }
        ensures { result ≡ self.tick +ℤ ticks }
    {
        self.tick + ticks
    }

    /// The same edge so many ticks later, unless that is too far.
    pub(crate) fn later(self, ticks: i64) -> Option<Near>
        requires { IsNear 131072 ticks }
        ensures is { IfSome result (λ near. (near.ideal ≡ self.ideal)
            × (near.tick ≡ self.tick +ℤ ticks) × (near.node ≡ self.node)) }
        ensures some { IsWithin (2 ^ 46) (self.tick +ℤ ticks) → is_some result ≡ true }
    {
        Near::at(self.ideal, self.tick_after(ticks), self.node)
    }

    /// The same with an event of this number.
    pub(crate) fn numbered(self, node: usize) -> Near
        ensures { (result.ideal ≡ self.ideal) × (result.tick ≡ self.tick) × (result.node ≡ node) }
    {
        Near {
            ideal: self.ideal,
            tick: self.tick,
            node,
        }
    }

    /// What the layers above see of it.
    pub(crate) fn arrival(self) -> Arrival
        ensures near { IsWithin (2 ^ 46) result.ideal × IsWithin (2 ^ 46) result.tick }
        ensures is { result ≡ record { ideal = self.ideal; tick = self.tick; node = self.node } }
    {
        Arrival {
            ideal: self.ideal,
            tick: self.tick,
            node: self.node,
        }
    }
}
