//! What holds of pictures, whatever they show.

ghost use Rattle.draw_report.specs.Element.{ReadsBack, WritesDocuments};
ghost use Rattle.draw_report.specs.Page.{PagesAreWritten};
ghost use Rattle.draw_report.specs.Row.{RowsAre};
ghost use Rattle.draw_report.specs.Shown.{RowShowsWave, ShadesSteps};

/// A reader of XML reads each tree back as it was meant, whatever the texts in it are.
pub fn trees_are_read_back()
    ensures { ReadsBack }
{}

/// So each picture is a document of XML.
pub fn pictures_are_documents()
    ensures { WritesDocuments }
{}

/// Each net is in one row, with bits of its name side by side and with its wave.
pub fn rows_have_one_wave()
    ensures { RowsAre }
{}

/// The paths of a row, read back, spell its wave slot by slot.
pub fn rows_show_waves()
    ensures { RowShowsWave }
{}

/// A slot is shaded exactly where the wave may step in it, however late it comes.
pub fn steps_are_shaded()
    ensures { ShadesSteps }
{}

/// A page of the pictures of sketches is the writing of one tree, so a document of XML too.
pub fn pages_are_written()
    ensures { PagesAreWritten }
{}
