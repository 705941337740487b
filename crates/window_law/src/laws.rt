//! Laws of windows. The functions do nothing: what each states is its contract.

ghost use Rattle.window_law.specs.Laws.{BreaksAreInWindow, BreaksMayMove, LowClocksAreInWindow, LowWindowRefutes, PeriodsMayGo, WindowRefutes};

/// A run without its first periods is a run of the same cases, with inputs that keep their
/// assertions.
pub fn periods_may_go()
    ensures { PeriodsMayGo }
{}

/// Its breaks are those of the run, so many periods later.
pub fn breaks_may_move()
    ensures { BreaksMayMove }
{}

/// A break from the printed tick on, in a run of any length, is one of a run in the window.
pub fn breaks_are_in_window()
    ensures { BreaksAreInWindow }
{}

/// What no run in the window breaks, no run breaks from the printed tick on.
pub fn window_refutes()
    ensures { WindowRefutes }
{}

/// The same of a checker whose clock is 0 in a slot of each period.
pub fn low_clocks_are_in_window()
    ensures { LowClocksAreInWindow }
{}

/// The same of such a checker.
pub fn low_window_refutes()
    ensures { LowWindowRefutes }
{}
