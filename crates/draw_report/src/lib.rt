//! Pictures of a drawing's waves and of its limits as SVG, and pages of them, for the word `draw`.
//!
//! The program calls [`draw_main`], which promises what each main call does (`program_call`). The
//! status is that of the whole drawing, and a refusal comes before what cannot be drawn
//! (`specs/Answer`).
//!
//! A picture is rows of waves over a grid of ticks, with marks on them. [`case_rows`] and
//! [`case_picture`] give those of a case over two periods, and [`picture_of`] draws any rows. Bits
//! of one name with equal waves are one row, clocks first (`specs/Row`). A row shows the runs of
//! its wave, shaded where its skew lets it step, and the latest changes (`specs/Wave`,
//! `specs/Shown`), with its marks (`specs/Mark`), over a grid (`specs/Grid`). `specs/Picture` says
//! which bytes these are: the writing of a tree of elements (`specs/Element`), which a reader of
//! XML reads back whatever the names are (`specs/Xml`).
#![tactic(auto)]

// text
mod paper;
mod style;

// rows
mod below;
mod clock;
mod label;
mod name;
mod row;

// what is drawn
mod grid;
mod run;
mod shape;
mod view;
mod wave;

// marks and captions
mod caption;
mod mark;
mod over;

// whole pictures and pages
mod case;
mod page;
mod picture;
mod sketch;
mod strip;

// what holds of the definitions
mod laws;

// the picture of a limit, and the marks of limits in that of a case
mod account;
mod limit;
mod limit_picture;
mod panel;
mod plan;
mod way;

// what is asked for, case by case
mod asked;
mod collected;
mod drawn;
mod job;
mod pictures;
mod sheets;
mod sought;

// the call
mod call;
mod outcome;
mod reply;
mod request;

pub use call::draw_main;
pub use case::{CaseHead, case_picture};
pub use laws::{
    pages_are_written, pictures_are_documents, rows_have_one_wave, rows_show_waves,
    steps_are_shaded, trees_are_read_back,
};
pub use mark::{Mark, Side, Slots, Span, Spot, marks_on};
pub use outcome::{DrawOutcome, draw_status};
pub use page::{Page, page_of};
pub use paper::{Paper, Piece};
pub use picture::{picture_of, room_of};
pub use row::{Row, case_rows};
pub use sketch::Sketch;
pub use view::View;
