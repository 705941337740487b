//! The margin of one parameter in the waves of one case.

ghost use Rattle.std.specs.Prelude.{◌≡◌, ◌+◌, ◌<◌, ◌≤◌, None, Some, IfOk, slice_get};
ghost use Rattle.scald_base.specs.Time.{period};
ghost use Rattle.fixpoint_engine.specs.Waves.{FitWaves, waves_of};
ghost use Rattle.margin_report.specs.Margin.{AreWithin, IsAskedBy, StopsAt, fault_with as fault_in, spare, written};

use crate::margin::{Parameter, Row};
use fixpoint_engine::Waves;
use flat_circuit::{Circuit, Fault, Instance, Limits};
use point_check::point_fault;
use pulse_check::width_fault;
use scald_base::NoMemory;
use std::alloc::Global;
use step_values::Value;
use wave_core::CyclicWave;

/// The written value of a parameter, of a checker's limits, in ticks.
pub fn written(limits: Limits, parameter: Parameter) -> u16
    ensures { result ≡ written limits parameter }
{
    match parameter {
        Parameter::Setup => limits.setup(),
        Parameter::Hold => limits.hold(),
        Parameter::High => limits.high(),
        Parameter::Low => limits.low(),
    }
}

/// How much more may be written in a period of so many ticks.
pub fn spare(period: u16, limits: Limits, parameter: Parameter) -> u16
    requires { AreWithin period limits parameter }
    ensures { result ≡ spare period limits parameter }
{
    match parameter {
        Parameter::Setup | Parameter::Hold => period - (limits.setup() + limits.hold()),
        Parameter::High => period - limits.high(),
        Parameter::Low => period - limits.low(),
    }
}

/// The fault that the checker of a row has in these waves, if the row's parameter is so much more
/// than it is written and the other as it is.
pub fn fault_with<W: CyclicWave<Item = Value>>(
    alloc: Global,
    c: &Circuit,
    waves: &Waves<W>,
    row: Row,
    checker: &Instance,
    more: u16,
) -> Result<Option<Fault>, NoMemory>
    requires there { slice_get c.now.instances row.instance ≡ Some checker.now }
    requires asked { IsAskedBy checker.now row.parameter }
    requires within { AreWithin (period c.now.header) checker.now.limits row.parameter }
    requires more { more ≤ spare (period c.now.header) checker.now.limits row.parameter }
    requires fit { FitWaves c.now waves.now }
    ensures { IfOk result (λ found. found ≡ fault_in c.now (waves_of waves.now) row.instance
        checker.now row.parameter (written checker.now.limits row.parameter + more)) }
{
    c.header().known();
    let limits = checker.limits;
    let number = row.instance;
    let value = written(limits, row.parameter) + more;
    match row.parameter {
        Parameter::Setup => {
            let hold = limits.hold();
            let longer = Limits::Edges { setup: value, hold };
            point_fault(alloc, c, waves, number, longer)
        }
        Parameter::Hold => {
            let setup = limits.setup();
            let longer = Limits::Edges { setup, hold: value };
            point_fault(alloc, c, waves, number, longer)
        }
        Parameter::High => width_fault(alloc, c, waves, number, true, value),
        Parameter::Low => width_fault(alloc, c, waves, number, false, value),
    }
}

/// By how much more the checker of a row that fits as it is written stops fitting, if with so much
/// more it has this fault: found by halves, since what does not fit fits no better with more. The
/// answer is how much more still fits, and the fault with one more.
pub fn stop_before<W: CyclicWave<Item = Value>>(
    alloc: Global,
    c: &Circuit,
    waves: &Waves<W>,
    row: Row,
    checker: &Instance,
    most: u16,
    found: Fault,
) -> Result<(u16, Fault), NoMemory>
    requires there { slice_get c.now.instances row.instance ≡ Some checker.now }
    requires asked { IsAskedBy checker.now row.parameter }
    requires within { AreWithin (period c.now.header) checker.now.limits row.parameter }
    requires most { most ≤ spare (period c.now.header) checker.now.limits row.parameter }
    requires fit { FitWaves c.now waves.now }
    requires fits { fault_in c.now (waves_of waves.now) row.instance checker.now
        row.parameter (written checker.now.limits row.parameter + 0) ≡ None }
    requires found { fault_in c.now (waves_of waves.now) row.instance checker.now
        row.parameter (written checker.now.limits row.parameter + most) ≡ Some found }
    ensures stops { IfOk result (λ stop.
        StopsAt c.now (waves_of waves.now) row.instance checker.now row.parameter
        stop.0 stop.1) }
    ensures sooner { IfOk result (λ stop. stop.0 < most) }
{
    let mut fits = 0;
    let mut faulty = most;
    let mut fault = found;
    while fits + 1 < faulty {
        let middle = fits + (faulty - fits) / 2;
        match fault_with(alloc, c, waves, row, checker, middle)? {
            Some(sooner) => {
                faulty = middle;
                fault = sooner;
            }
            None => fits = middle,
        }
    }
    Ok((fits, fault))
}
