//! The shape of a run of one value.

ghost use Rattle.draw_report.specs.Element.{words_text};
ghost use Rattle.draw_report.specs.Paper.{Adds};
ghost use Rattle.draw_report.specs.Shape.{area, box, down, high, low, shade, shape, up};

use crate::paper::{Paper, Piece};
use step_values::Value;

/// Where a run is drawn: from where on, how wide, and whether it has one slot alone.
#[derive(Clone, Copy)]
pub struct Stroke {
    pub x: u64,
    pub width: u64,
    pub is_single: bool,
}

impl Stroke {
    /// The lower rail.
    fn put_low(self, out: &mut Paper)
        ensures { Adds out.old out.new (words_text (low self)) }
    {
        out.put(&[
            Piece::Markup(b"M"),
            Piece::Number(self.x),
            Piece::Markup(b" 200h"),
            Piece::Number(self.width),
        ]);
    }

    /// The upper rail.
    fn put_high(self, out: &mut Paper)
        ensures { Adds out.old out.new (words_text (high self)) }
    {
        out.put(&[
            Piece::Markup(b"M"),
            Piece::Number(self.x),
            Piece::Markup(b" 40h"),
            Piece::Number(self.width),
        ]);
    }

    /// Both rails, closed.
    fn put_box(self, out: &mut Paper)
        ensures { Adds out.old out.new (words_text (box self)) }
    {
        out.put(&[
            Piece::Markup(b"M"),
            Piece::Number(self.x),
            Piece::Markup(b" 40h"),
            Piece::Number(self.width),
            Piece::Markup(b"v160h-"),
            Piece::Number(self.width),
            Piece::Markup(b"z"),
        ]);
    }

    /// From the lower rail to the upper.
    fn put_up(self, out: &mut Paper)
        ensures { Adds out.old out.new (words_text (up self)) }
    {
        out.put(&[
            Piece::Markup(b"M"),
            Piece::Number(self.x),
            Piece::Markup(b" 200l"),
            Piece::Number(self.width),
            Piece::Markup(b" -160"),
        ]);
    }

    /// From the upper rail to the lower.
    fn put_down(self, out: &mut Paper)
        ensures { Adds out.old out.new (words_text (down self)) }
    {
        out.put(&[
            Piece::Markup(b"M"),
            Piece::Number(self.x),
            Piece::Markup(b" 40l"),
            Piece::Number(self.width),
            Piece::Markup(b" 160"),
        ]);
    }

    /// The shape of a value: a level, rails, a box with its hatch, and of a single slot its step.
    pub fn put_shape(self, out: &mut Paper, value: Value)
        ensures { Adds out.old out.new (words_text (shape value self)) }
    {
        match value {
            Value::Zero => self.put_low(out),
            Value::One => self.put_high(out),
            Value::S | Value::U => self.put_box(out),
            Value::R => {
                if !self.is_single {
                    self.put_box(out);
                }
                self.put_up(out);
            }
            Value::F => {
                if !self.is_single {
                    self.put_box(out);
                }
                self.put_down(out);
            }
            Value::C if self.is_single => {
                self.put_down(out);
                self.put_up(out);
            }
            Value::C => self.put_box(out),
        }
    }

    /// Slots of a row in which its wave may step.
    pub fn put_shade(self, out: &mut Paper)
        ensures { Adds out.old out.new (words_text (shade self)) }
    {
        out.put(&[
            Piece::Markup(b"M"),
            Piece::Number(self.x),
            Piece::Markup(b" 20h"),
            Piece::Number(self.width),
            Piece::Markup(b"v200h-"),
            Piece::Number(self.width),
            Piece::Markup(b"z"),
        ]);
    }

    /// Slots of a row that a checker watches, or in which something offends.
    pub fn put_area(self, out: &mut Paper)
        ensures { Adds out.old out.new (words_text (area self)) }
    {
        out.put(&[
            Piece::Markup(b"M"),
            Piece::Number(self.x),
            Piece::Markup(b" 0h"),
            Piece::Number(self.width),
            Piece::Markup(b"v240h-"),
            Piece::Number(self.width),
            Piece::Markup(b"z"),
        ]);
    }
}
