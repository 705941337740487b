//! The grid of ticks.
//!
//! The line of a tick is the right end of its slot, so it has the place of the slot after it. Lines
//! count by that slot.

ghost use Rattle.std.specs.Prelude.{◌≡◌, ◌<◌, ◌≤◌, ◌^◌};
ghost use Rattle.std.specs.List.{flat_map, list_any};
ghost use Rattle.draw_report.specs.Element.{all_written, words_text};
ghost use Rattle.draw_report.specs.Grid.{begins_unit, class_of, grid_nodes, has_number, has_tick, is_period, is_ruled, is_step, is_unit, lines, phase, ruled_path, ruled_words, shows_units, step, tick_at, tick_modulo, tick_numbers, tick_of, unit_at, unit_numbers};
ghost use Rattle.draw_report.specs.Paper.{Adds};
ghost use Rattle.draw_report.specs.View.{IsView};

use crate::paper::{Paper, Piece};
use crate::view::View;

/// Between how many ticks there may be a line.
const STEPS: [u32; 12] = [1, 2, 5, 10, 20, 50, 100, 200, 500, 1000, 2000, 5000];

/// The most steps between two lines.
const MOST_STEP: u32 = 10_000;

/// What a line stands for.
#[derive(Clone, Copy)]
pub enum Ruled {
    /// The end of a period.
    Periods,
    /// The end of a unit, where no period ends.
    Units,
    /// So many ticks more, where neither ends.
    Steps,
}

impl View {
    /// Between how many ticks there is a line and a number.
    fn step(self) -> u32
        ensures is { result ≡ step self }
        ensures some { 1 ≤ result }
    {
        for step in &STEPS {
            if u64::from(self.count) <= 16 * u64::from(*step) {
                return *step;
            }
        }
        MOST_STEP
    }

    /// Whether units have lines.
    fn shows_units(self) -> bool
        ensures { result ≡ shows_units self }
    {
        u64::from(self.count) <= 32 * u64::from(self.unit)
    }

    /// Whether the tick of a line is not before tick 0.
    fn has_number(self, line: u32) -> bool
        ensures { result ≡ has_number self line }
    {
        self.moved < line
    }

    /// The tick of a line that has a number.
    fn tick(self, line: u32) -> u32
        requires { self.moved < 2 ^ 30 }
        ensures { result ≡ tick_of self line }
    {
        line.saturating_sub(self.moved + 1)
    }

    /// The tick of a line modulo a number: it is one less than the line, and as many ticks earlier
    /// as the view is moved.
    fn tick_modulo(self, line: u32, number: u32) -> u32
        requires { 1 ≤ number }
        ensures { result ≡ tick_modulo self line number }
    {
        let number = u64::from(number);
        let back = (u64::from(self.moved) + 1) % number;
        ((u64::from(line) + (number - back)) % number) as u32
    }

    /// The tick of a line in its period.
    fn phase(self, line: u32) -> u32
        requires { 1 ≤ self.period }
        ensures { result ≡ phase self line }
    {
        self.tick_modulo(line, u32::from(self.period))
    }

    /// Whether a period ends at a line.
    fn is_period(self, line: u32) -> bool
        requires { 1 ≤ self.period }
        ensures { result ≡ is_period self line }
    {
        self.phase(line) == 0
    }

    /// Whether a unit does, and no period.
    fn is_unit(self, line: u32) -> bool
        requires period { 1 ≤ self.period }
        requires unit { 1 ≤ self.unit }
        ensures { result ≡ is_unit self line }
    {
        !self.is_period(line)
            && (self.shows_units() && self.phase(line) % u32::from(self.unit) == 0)
    }

    /// Whether neither does, and there is a line.
    fn is_step(self, line: u32) -> bool
        requires period { 1 ≤ self.period }
        requires unit { 1 ≤ self.unit }
        ensures { result ≡ is_step self line }
    {
        (!self.is_period(line) && !self.is_unit(line)) && self.tick_modulo(line, self.step()) == 0
    }
}

impl Ruled {
    /// Whether a line of the view stands for this.
    fn is_at(self, view: View, line: u32) -> bool
        requires period { 1 ≤ view.period }
        requires unit { 1 ≤ view.unit }
        ensures { result ≡ is_ruled self view line }
    {
        match self {
            Ruled::Periods => view.is_period(line),
            Ruled::Units => view.is_unit(line),
            Ruled::Steps => view.is_step(line),
        }
    }

    /// The class of such lines.
    fn class(self) -> &'static [u8]
        ensures { result.now ≡ class_of self }
    {
        match self {
            Ruled::Periods => b"p".as_slice(),
            Ruled::Units => b"u".as_slice(),
            Ruled::Steps => b"g".as_slice(),
        }
    }
}

// ---- lines

/// Whether the view has lines of a kind.
fn any_ruled(view: View, ruled: Ruled) -> bool
    requires { IsView view }
    ensures { result ≡ list_any (is_ruled ruled view) (lines view) }
{
    for line in view.first..view.after_last() + 1 {
        if ruled.is_at(view, line) {
            return true;
        }
    }
    false
}

/// A line, so high, if it is of a kind.
fn put_line(out: &mut Paper, view: View, ruled: Ruled, height: u64, line: u32)
    requires { IsView view }
    ensures { Adds out.old out.new (words_text (ruled_words view height ruled line)) }
{
    if ruled.is_at(view, line) {
        out.put(&[
            Piece::Markup(b"M"),
            Piece::Number(view.x(line)),
            Piece::Markup(b" 0v"),
            Piece::Number(height),
        ]);
    }
}

/// The lines of a kind.
fn put_lines(out: &mut Paper, view: View, ruled: Ruled, height: u64)
    requires { IsView view }
    ensures { Adds out.old out.new
        (words_text (flat_map (ruled_words view height ruled) (lines view))) }
{
    for line in view.first..view.after_last() + 1 {
        put_line(out, view, ruled, height, line);
    }
}

/// One path of the lines of a kind, if there are some.
fn put_ruled(out: &mut Paper, view: View, ruled: Ruled, height: u64)
    requires { IsView view }
    ensures { Adds out.old out.new (all_written (ruled_path view height ruled)) }
{
    if any_ruled(view, ruled) {
        out.put(&[
            Piece::Markup(b"<path class=\""),
            Piece::Text(ruled.class()),
            Piece::Markup(b"\" d=\""),
        ]);
        put_lines(out, view, ruled, height);
        out.put(&[Piece::Markup(b"\"/>")]);
    }
}

// ---- numbers

/// Whether the tick of a line has its number written.
fn has_tick(view: View, line: u32) -> bool
    requires { IsView view }
    ensures { result ≡ has_tick view line }
{
    view.has_number(line) && view.tick(line) % view.step() == 0
}

/// The number of the tick of a line, if it is written.
fn put_tick(out: &mut Paper, view: View, line: u32)
    requires { IsView view }
    ensures { Adds out.old out.new (all_written (tick_at view line)) }
{
    if has_tick(view, line) {
        out.put(&[
            Piece::Markup(b"<text class=\"q m\" x=\""),
            Piece::Number(view.x(line)),
            Piece::Markup(b"\" y=\"-40\">"),
            Piece::Number(u64::from(view.tick(line))),
            Piece::Markup(b"</text>"),
        ]);
    }
}

/// The numbers of ticks.
fn put_ticks(out: &mut Paper, view: View)
    requires { IsView view }
    ensures { Adds out.old out.new (all_written (tick_numbers view)) }
{
    out.put(&[Piece::Markup(b"<text class=\"q e\" x=\"-200\" y=\"-40\">tick</text>")]);
    for line in view.first..view.after_last() + 1 {
        put_tick(out, view, line);
    }
}

/// Whether a unit begins at a line, and the view has more of it than its first tick.
fn begins_unit(view: View, line: u32) -> bool
    requires { IsView view }
    ensures { result ≡ begins_unit view line }
{
    let unit = u32::from(view.unit);
    (view.shows_units() && view.has_number(line))
        && (view.phase(line) % unit == 0
            && u64::from(line) + u64::from(unit) <= u64::from(view.after_last()))
}

/// Whether a unit does so at some line.
fn any_unit(view: View) -> bool
    requires { IsView view }
    ensures { result ≡ list_any (begins_unit view) (lines view) }
{
    for line in view.first..view.after_last() + 1 {
        if begins_unit(view, line) {
            return true;
        }
    }
    false
}

/// The number of the unit that begins at a line, in its middle, if one does.
fn put_unit(out: &mut Paper, view: View, line: u32)
    requires { IsView view }
    ensures { Adds out.old out.new (all_written (unit_at view line)) }
{
    if begins_unit(view, line) {
        let half = u64::from(view.scale()) * u64::from(view.unit) / 2;
        out.put(&[
            Piece::Markup(b"<text class=\"q m\" x=\""),
            Piece::Number(view.x(line) + half),
            Piece::Markup(b"\" y=\"-170\">"),
            Piece::Number(u64::from(view.phase(line) / u32::from(view.unit))),
            Piece::Markup(b"</text>"),
        ]);
    }
}

/// The numbers of units, if there are some.
fn put_units(out: &mut Paper, view: View)
    requires { IsView view }
    ensures { Adds out.old out.new (all_written (unit_numbers view)) }
{
    if any_unit(view) {
        out.put(&[Piece::Markup(b"<text class=\"q e\" x=\"-200\" y=\"-170\">unit</text>")]);
        for line in view.first..view.after_last() + 1 {
            put_unit(out, view, line);
        }
    }
}

/// The grid, so high, with its numbers.
pub fn put_grid(out: &mut Paper, view: View, height: u64)
    requires { IsView view }
    ensures { Adds out.old out.new (all_written (grid_nodes view height)) }
{
    put_ruled(out, view, Ruled::Steps, height);
    put_ruled(out, view, Ruled::Units, height);
    put_ruled(out, view, Ruled::Periods, height);
    put_ticks(out, view);
    put_units(out, view);
}
