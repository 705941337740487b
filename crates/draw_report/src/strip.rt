//! A row with its wave and its marks.

ghost use Rattle.std.specs.Prelude.{◌≡◌, ◌+◌, ◌<◌, ◌≤◌, ◌^◌, length, zip};
ghost use Rattle.draw_report.specs.Element.{all_written, written};
ghost use Rattle.draw_report.specs.Paper.{Adds};
ghost use Rattle.draw_report.specs.Picture.{if_skewed, label_text, row_group, row_groups, row_nodes, skew_texts, title};
ghost use Rattle.draw_report.specs.View.{IsView};
ghost use Rattle.draw_report.specs.Wave.{late_paths, shaded_paths};

use crate::label::put_shown;
use crate::mark::{Layout, put_all_bad, put_flags, put_windows};
use crate::paper::{Paper, Piece};
use crate::sketch::Sketch;
use crate::view::View;
use crate::wave::{put_late, put_period, put_shaded, put_wave};
use skew_algebra::Skewed;
use std::alloc::Global;
use step_values::Value;
use wave_core::CyclicWave;

/// The title of a row, which is its line in the report.
fn put_title<W: CyclicWave<Item = Value>>(
    alloc: Global,
    out: &mut Paper,
    label: &[u8],
    wave: &Skewed<W>,
)
    ensures { Adds out.old out.new (written (title label.now wave.now)) }
{
    out.put(&[
        Piece::Markup(b"<title>"),
        Piece::Text(label),
        Piece::Markup(b" SKEW "),
        Piece::Number(u64::from(wave.skew())),
    ]);
    put_period(alloc, out, wave.wave());
    out.put(&[Piece::Markup(b"</title>")]);
}

/// The label of a row.
fn put_label(out: &mut Paper, label: &[u8])
    ensures { Adds out.old out.new (written (label_text label.now)) }
{
    out.put(&[Piece::Markup(b"<text class=\"e\" x=\"-60\" y=\"160\">")]);
    put_shown(out, label);
    out.put(&[Piece::Markup(b"</text>")]);
}

/// Where a wave may step, if it has a skew.
fn put_shade<W: CyclicWave<Item = Value>>(
    alloc: Global,
    out: &mut Paper,
    view: View,
    wave: &Skewed<W>,
)
    requires { view.first + view.count < 2 ^ 30 }
    ensures { Adds out.old out.new
        (all_written (if_skewed wave.now (shaded_paths view wave.now))) }
{
    if wave.skew() > 0 {
        put_shaded(alloc, out, view, wave);
    }
}

/// Its latest changes, if it has one.
fn put_changes<W: CyclicWave<Item = Value>>(
    alloc: Global,
    out: &mut Paper,
    view: View,
    wave: &Skewed<W>,
)
    requires { view.first + view.count < 2 ^ 30 }
    ensures { Adds out.old out.new
        (all_written (if_skewed wave.now (late_paths view wave.now))) }
{
    if wave.skew() > 0 {
        put_late(alloc, out, view, wave);
    }
}

/// The skew in words, if there is one.
fn put_skew(out: &mut Paper, view: View, skew: u16)
    ensures { Adds out.old out.new (all_written (skew_texts view skew)) }
{
    if skew > 0 {
        out.put(&[
            Piece::Markup(b"<text class=\"q\" x=\""),
            Piece::Number(view.plot() + 60),
            Piece::Markup(b"\" y=\"155\">skew "),
            Piece::Number(u64::from(skew)),
            Piece::Markup(b"</text>"),
        ]);
    }
}

/// What is below and above the rails of a row, from the back to the front.
fn put_nodes<W: CyclicWave<Item = Value>>(
    alloc: Global,
    out: &mut Paper,
    sketch: &Sketch,
    place: u32,
    wave: &Skewed<W>,
)
    requires { IsView sketch.now.view }
    ensures { Adds out.old out.new
        (all_written (row_nodes sketch.now.view sketch.now.marks.now place wave.now)) }
{
    let view = sketch.view;
    put_shade(alloc, out, view, wave);
    put_windows(out, view, sketch.marks, place);
    put_changes(alloc, out, view, wave);
    put_wave(alloc, out, view, wave.wave());
    put_all_bad(out, view, sketch.marks, place);
    put_skew(out, view, wave.skew());
    put_flags(out, view, sketch.marks, place);
}

/// The row at a place, from 0.
fn put_row<W: CyclicWave<Item = Value>>(
    alloc: Global,
    out: &mut Paper,
    sketch: &Sketch,
    layout: Layout,
    place: u32,
    label: &[u8],
    wave: &Skewed<W>,
)
    requires { IsView sketch.now.view }
    ensures { Adds out.old out.new (all_written
        (row_group sketch.now.view layout sketch.now.marks.now place label.now wave.now)) }
{
    out.put(&[
        Piece::Markup(b"<g transform=\"translate(0 "),
        Piece::Number(layout.y(place)),
        Piece::Markup(b")\">"),
    ]);
    put_title(alloc, out, label, wave);
    put_label(out, label);
    put_nodes(alloc, out, sketch, place, wave);
    out.put(&[Piece::Markup(b"</g>\n")]);
}

/// The rows, one below the other.
pub fn put_rows<W: CyclicWave<Item = Value>>(
    alloc: Global,
    out: &mut Paper,
    sketch: &Sketch,
    layout: Layout,
    waves: &[Skewed<W>],
)
    requires view { IsView sketch.now.view }
    requires labels { length sketch.now.labels.now ≡ length waves.now }
    requires few { length waves.now ≤ 8192 }
    ensures { Adds out.old out.new (all_written (row_groups sketch.now.view layout
        sketch.now.marks.now 0 (zip sketch.now.labels.now waves.now))) }
{
    for place in 0..waves.len() {
        let label = sketch.labels[place].as_slice();
        put_row(
            alloc,
            out,
            sketch,
            layout,
            place as u32,
            label,
            &waves[place],
        );
    }
}
