//! The whole call: words and the bytes of a netlist in, bytes and an outcome out.

ghost use Rattle.program_call.specs.Call.{IsCall, devices, nothing_more};
ghost use Rattle.netlist_import.specs.Answer.{importer};

use crate::outcome::ImportOutcome;
use crate::program::Importer;
use program_call::{Omissions, main_call};
use scald_base::{Sink, Source, Words};
use std::alloc::Global;

/// Writes the macros of a netlist to the sink, or why the netlist is refused. The word `import`
/// asks for those of the design, `import cells` for those of the kinds of cells.
///
/// The source is read to its end, or to the first byte past 67,108,864, or to its first fault. All
/// of the answer is made before the first byte of it is written.
pub fn import_main<S: Source, K: Sink>(
    alloc: Global,
    words: &Words,
    source: &mut S,
    sink: &mut K,
) -> ImportOutcome
    ensures { IsCall importer nothing_more words.now result
        (devices S.left S.faults K.taken K.faults) source.old source.new sink.old sink.new }
{
    main_call::<Importer, S, K>(alloc, words, source, sink, &mut Omissions::unasked())
}
