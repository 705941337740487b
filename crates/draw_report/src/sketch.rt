//! What a picture shows.

use crate::mark::Mark;
use crate::view::View;
use scald_base::Bytes;

/// What a picture shows beside its waves: the part of the time line; how far it is from one row to
/// the next, in tenths of a pixel; the heading; a label for each row; the marks, with the texts
/// that they say; and the lines below. In a page it has the page's room for labels, or more, and
/// looks as the page says; alone it has a look of its own.
#[derive(Clone, Copy)]
pub struct Sketch<'a> {
    pub view: View,
    pub pitch: u16,
    pub heading: &'a [u8],
    pub labels: &'a [Bytes],
    pub marks: &'a [Mark],
    pub texts: &'a [Bytes],
    pub caption: &'a [Bytes],
    pub page: Option<u64>,
}
