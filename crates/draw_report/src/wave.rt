//! What a row shows of its wave.

ghost use Rattle.std.specs.Prelude.{◌≡◌, ◌+◌, ◌<◌, ◌^◌, length, map, codes, IfOk};
ghost use Rattle.std.specs.List.{flat_map, list_any};
ghost use Rattle.draw_report.specs.Element.{all_written, words_text, written};
ghost use Rattle.draw_report.specs.Paper.{Adds};
ghost use Rattle.draw_report.specs.View.{scale};
ghost use Rattle.draw_report.specs.Wave.{busy_path, is_busy, late_paths, late_words, run_path, run_words, runs_from, shaded_paths, step_in, step_words, steps_of, wave_paths};

use crate::paper::{Paper, Piece};
use crate::run::{Placed, runs_in};
use crate::view::View;
use scald_base::NoMemory;
use skew_algebra::Skewed;
use std::alloc::Global;
use step_values::Value;
use wave_core::{Cell, CyclicWave};

// ---- the wave as it is

/// A run in words.
fn put_words(out: &mut Paper, run: Placed)
    ensures { Adds out.old out.new (words_text (run_words run)) }
{
    out.put(&[
        Piece::Markup(b" "),
        Piece::Byte(run.value.letter()),
        Piece::Markup(b":"),
        Piece::Number(u64::from(run.width)),
    ]);
}

/// Runs in words.
fn put_all_words(out: &mut Paper, runs: &[Placed])
    ensures { Adds out.old out.new (words_text (flat_map run_words runs.now)) }
{
    for run in runs {
        put_words(out, *run);
    }
}

/// The runs of a period, as the report has them.
pub fn put_period<W: CyclicWave<Item = Value>>(alloc: Global, out: &mut Paper, wave: &W)
    ensures { let cells = W.cells wave.now in
        Adds out.old out.new (words_text (flat_map run_words (runs_from cells 0 (length cells)))) }
{
    match runs_in(alloc, wave, 0, u32::from(wave.period())) {
        Ok(runs) => put_all_words(out, runs.as_slice()),
        Err(_) => out.lose(),
    }
}

/// The path of a run, where a slot is so wide.
fn put_run(out: &mut Paper, scale: u32, run: Placed)
    ensures { Adds out.old out.new (written (run_path scale run)) }
{
    out.put(&[
        Piece::Markup(b"<path class=\"v"),
        Piece::Byte(run.value.letter()),
        Piece::Markup(b"\" d=\""),
    ]);
    run.stroke(scale).put_shape(out, run.value);
    out.put(&[Piece::Markup(b"\"/>")]);
}

/// The paths of runs.
fn put_runs(out: &mut Paper, scale: u32, runs: &[Placed])
    ensures { Adds out.old out.new (all_written (map (run_path scale) runs.now)) }
{
    for run in runs {
        put_run(out, scale, *run);
    }
}

/// A path for each run of the wave in the view.
pub fn put_wave<W: CyclicWave<Item = Value>>(alloc: Global, out: &mut Paper, view: View, wave: &W)
    requires { view.first + view.count < 2 ^ 30 }
    ensures { Adds out.old out.new (all_written (wave_paths view (W.cells wave.now))) }
{
    match runs_in(alloc, wave, view.first, view.count) {
        Ok(runs) => put_runs(out, view.scale(), runs.as_slice()),
        Err(_) => out.lose(),
    }
}

// ---- with a skew

/// Whether one of these runs may change.
fn any_busy(runs: &[Placed]) -> bool
    ensures { result ≡ list_any is_busy runs.now }
{
    runs.iter().any(|run| !run.value.quiet())
}

/// The shape of a run that may change.
fn put_busy(out: &mut Paper, scale: u32, run: Placed)
    ensures { Adds out.old out.new (words_text (late_words scale run)) }
{
    if !run.value.quiet() {
        run.stroke(scale).put_shape(out, run.value);
    }
}

/// The shapes of the runs that may change.
fn put_all_busy(out: &mut Paper, scale: u32, runs: &[Placed])
    ensures { Adds out.old out.new (words_text (flat_map (late_words scale) runs.now)) }
{
    for run in runs {
        put_busy(out, scale, *run);
    }
}

/// One path of those shapes, if there are some.
fn put_changes(out: &mut Paper, scale: u32, runs: &[Placed])
    ensures { Adds out.old out.new
        (all_written (busy_path (codes "late") (late_words scale) runs.now)) }
{
    if any_busy(runs) {
        out.put(&[Piece::Markup(b"<path class=\"late\" d=\"")]);
        put_all_busy(out, scale, runs);
        out.put(&[Piece::Markup(b"\"/>")]);
    }
}

/// One path of the changes of a wave without skew, as far as so many slots from one on have them.
fn put_changing<W: CyclicWave<Item = Value>>(
    alloc: Global,
    out: &mut Paper,
    view: View,
    from: u32,
    wave: &W,
)
    requires { from + view.count < 2 ^ 31 }
    ensures { Adds out.old out.new (all_written (busy_path (codes "late") (late_words (scale view))
        (runs_from (W.cells wave.now) from view.count))) }
{
    match runs_in(alloc, wave, from, view.count) {
        Ok(runs) => put_changes(out, view.scale(), runs.as_slice()),
        Err(_) => out.lose(),
    }
}

/// The changes of a wave as late as its skew lets them come.
pub fn put_late<W: CyclicWave<Item = Value>>(
    alloc: Global,
    out: &mut Paper,
    view: View,
    wave: &Skewed<W>,
)
    requires { view.first + view.count < 2 ^ 30 }
    ensures { Adds out.old out.new (all_written (late_paths view wave.now)) }
{
    wave.known();
    let from = view.first + u32::from(wave.period() - wave.skew());
    put_changing(alloc, out, view, from, wave.wave());
}

/// Whether a slot of a fold may step: it may change, or it does not.
fn step_in(value: Value) -> Value
    ensures { result ≡ step_in value }
{
    if value.quiet() { Value::S } else { Value::C }
}

/// In which slots a wave may step, however late it comes.
fn steps_of<W: CyclicWave<Item = Value>>(alloc: Global, wave: &Skewed<W>) -> Result<W, NoMemory>
    ensures { IfOk result (λ steps. W.cells steps ≡ steps_of wave.now) }
{
    let fold = wave.folded(alloc)?;
    fold.map(alloc, |value| step_in(value))
}

/// The slots of a run that may step.
fn put_step(out: &mut Paper, scale: u32, run: Placed)
    ensures { Adds out.old out.new (words_text (step_words scale run)) }
{
    if !run.value.quiet() {
        run.stroke(scale).put_shade(out);
    }
}

/// The slots of the runs that may step.
fn put_all_steps(out: &mut Paper, scale: u32, runs: &[Placed])
    ensures { Adds out.old out.new (words_text (flat_map (step_words scale) runs.now)) }
{
    for run in runs {
        put_step(out, scale, *run);
    }
}

/// One path of those slots, if there are some.
fn put_steps(out: &mut Paper, scale: u32, runs: &[Placed])
    ensures { Adds out.old out.new
        (all_written (busy_path (codes "sm") (step_words scale) runs.now)) }
{
    if any_busy(runs) {
        out.put(&[Piece::Markup(b"<path class=\"sm\" d=\"")]);
        put_all_steps(out, scale, runs);
        out.put(&[Piece::Markup(b"\"/>")]);
    }
}

/// The slots of a wave without skew that may step.
fn put_stepping<W: CyclicWave<Item = Value>>(alloc: Global, out: &mut Paper, view: View, steps: &W)
    requires { view.first + view.count < 2 ^ 30 }
    ensures { Adds out.old out.new (all_written (busy_path (codes "sm") (step_words (scale view))
        (runs_from (W.cells steps.now) view.first view.count))) }
{
    match runs_in(alloc, steps, view.first, view.count) {
        Ok(runs) => put_steps(out, view.scale(), runs.as_slice()),
        Err(_) => out.lose(),
    }
}

/// The slots in which a wave may step, however late it comes.
pub fn put_shaded<W: CyclicWave<Item = Value>>(
    alloc: Global,
    out: &mut Paper,
    view: View,
    wave: &Skewed<W>,
)
    requires { view.first + view.count < 2 ^ 30 }
    ensures { Adds out.old out.new (all_written (shaded_paths view wave.now)) }
{
    match steps_of(alloc, wave) {
        Ok(steps) => put_stepping(alloc, out, view, &steps),
        Err(_) => out.lose(),
    }
}
