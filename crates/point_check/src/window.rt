//! Windows about the edges of a clock.

/// How many slots about an edge an input is to be quiet in.
#[derive(Clone, Copy)]
pub struct Window {
    /// Up to the edge's own slot.
    pub setup: u16,
    /// After that, while the clock may be high.
    pub high: u16,
    /// After that.
    pub hold: u16,
}
