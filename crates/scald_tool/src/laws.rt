//! Laws of texts and their answers: what each states is its contract. All but the last do nothing.

ghost use Rattle.std.specs.Prelude.{◌≡◌, ◌⊎◌, None};
ghost use Rattle.scald_tool.specs.Finished.{AsksWell, IsFinished};
ghost use Rattle.scald_tool.specs.Forms.{WordsAreKnown, WordsAreRead};
ghost use Rattle.scald_tool.specs.Laws.{OneAnswer, ReportsArePromised};
ghost use Rattle.scald_tool.specs.Promise.{IsAnswered};

use crate::tool::tool_main;
use program_call::Omissions;
use scald_base::{CountSink, Outcome, SureSource, Words};
use std::alloc::Global;

/// Words are read as the form that has them, or as unrecognised from the first word with which no
/// form continues; and the words of each form are read as it.
pub fn words_are_read_by_their_form()
    ensures read { WordsAreRead }
    ensures known { WordsAreKnown }
{}

/// Words and a text have one answer.
pub fn words_have_one_answer()
    ensures { OneAnswer }
{}

/// A report is that of the circuit, the settled base and cases which the promises of its text speak
/// of: rounds settle once, and a case has one end.
pub fn reports_are_promised()
    ensures { ReportsArePromised }
{}

/// The whole call over devices that never fail, of which nothing is asked: the answer is the one
/// that the words and the bytes of the source have, or no memory. It is a report or what else was
/// asked for if the words are of a form and the text passes every stage of it.
pub fn answers_over_sure_devices(
    alloc: Global,
    words: &Words,
    source: &mut SureSource,
    sink: &mut CountSink,
) -> Outcome
    ensures whole { (result ≡ Outcome.NoMemory) ⊎ IsAnswered words.now source.old result None None }
    ensures finished { AsksWell words.now source.old →
        (result ≡ Outcome.NoMemory) ⊎ IsFinished words.now source.old result None None }
{
    tool_main(alloc, words, source, sink, &mut Omissions::unasked())
}
