//! The pictures of a page while the cases come.

ghost use Rattle.std.specs.Prelude.{IfOk, IfSome, OnOk};
ghost use Rattle.std.specs.List.{All};
ghost use Rattle.draw_report.specs.Drawn.{AreDrawn, IsPicture};

use crate::picture::picture_of;
use crate::sketch::Sketch;
use crate::view::View;
use scald_base::{Bytes, List, NoMemory};
use skew_algebra::Skewed;
use std::alloc::Global;
use step_values::Value;
use wave_core::CyclicWave;

/// The most limits of a page.
const MOST_LIMITS: usize = 8192;

/// The pictures of the broken limits in the order of the table, and of the cases; and whether one
/// of them has too much to draw.
#[derive(Drop)]
pub struct Pictures {
    pub limits: List<Bytes>,
    pub cases: List<Bytes>,
    pub is_much: bool,
}

/// A picture of nothing, which stands where none has come yet.
fn blank<W: CyclicWave<Item = Value>>(alloc: Global) -> Result<Bytes, NoMemory>
    ensures { IfOk result IsPicture }
{
    let sketch = Sketch {
        view: View {
            first: 0,
            count: 1,
            period: 1,
            unit: 1,
            moved: 0,
        },
        pitch: 0,
        heading: &[],
        labels: &[],
        marks: &[],
        texts: &[],
        caption: &[],
        page: Some(0),
    };
    let waves: List<Skewed<W>> = List::new(alloc);
    picture_of(alloc, &sketch, waves.as_slice())
}

/// So many pictures of nothing.
fn blanks<W: CyclicWave<Item = Value>>(alloc: Global, count: usize) -> Result<List<Bytes>, NoMemory>
    ensures { IfOk result (All IsPicture) }
{
    let mut blanks = List::new(alloc);
    for _place in 0..count {
        let picture = blank::<W>(alloc)?;
        blanks.push(picture)?;
    }
    Ok(blanks)
}

impl Pictures {
    /// Room for so many limits.
    pub fn new<W: CyclicWave<Item = Value>>(
        alloc: Global,
        count: usize,
    ) -> Result<Pictures, NoMemory>
        ensures { IfOk result AreDrawn }
    {
        let limits = blanks::<W>(alloc, count.min(MOST_LIMITS))?;
        Ok(Pictures {
            limits,
            cases: List::new(alloc),
            is_much: count > MOST_LIMITS,
        })
    }

    /// One case more.
    pub fn add_case(&mut self, picture: Option<Bytes>) -> Result<(), NoMemory>
        requires drawn { AreDrawn self.old }
        requires picture { IfSome picture IsPicture }
        ensures { OnOk result (AreDrawn self.new) }
    {
        match picture {
            Some(bytes) => self.cases.push(bytes),
            None => {
                self.is_much = true;
                Ok(())
            }
        }
    }

    /// The limit at a place.
    pub fn set_limit(&mut self, place: usize, picture: Option<Bytes>)
        requires drawn { AreDrawn self.old }
        requires picture { IfSome picture IsPicture }
        ensures { AreDrawn self.new }
    {
        match picture {
            Some(bytes) => {
                if place < self.limits.len() {
                    self.limits.set(place, bytes);
                }
            }
            None => self.is_much = true,
        }
    }
}
