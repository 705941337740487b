//! What each refusal says, in a sentence.

use scald_base::RefusalKind;

/// What is wrong if a text is refused so.
pub fn sentence(kind: RefusalKind) -> &'static [u8] {
    match kind {
        RefusalKind::BadByte =>
            b"a byte that is neither printable ASCII nor a tab nor the end of a line",
        RefusalKind::BadToken => b"no word, number, name or symbol stands here",
        RefusalKind::Syntax => b"no drawing continues like this",
        RefusalKind::BadHeader => b"a number of the header is out of its bounds",
        RefusalKind::DoubleName => b"this name is already taken",
        RefusalKind::UnknownKind => b"there is no such kind and no such macro",
        RefusalKind::BadName => b"this is not how a signal is named",
        RefusalKind::AssertionClash => {
            b"a signal has another assertion here than before, or a formal has one"
        }
        RefusalKind::BadParameter => b"a parameter is unknown, or is given twice",
        RefusalKind::Overflow => b"a value does not fit 64 bits",
        RefusalKind::BadRange => {
            b"a bit's number is not 0 to 65535 or not the formal's, or a range has more than 256 bits"
        }
        RefusalKind::Width => b"two widths differ here, or one is more than 256 bits",
        RefusalKind::PinCount =>
            b"too many connections, or too few, or a mark !H where none may be",
        RefusalKind::Bounds => {
            b"a delay or a limit is out of its bounds, or is missing, or may not be here"
        }
        RefusalKind::TooDeep => b"more than 64 are nested here",
        RefusalKind::TooMany => b"this is one more than a drawing may have",
        RefusalKind::TwoDrivers => b"this output is a constant, or is driven before",
        RefusalKind::ZeroLoop => b"a loop whose least delay is 0 leads here",
        RefusalKind::CaseNet => b"a case may not set this net so",
        RefusalKind::EdgesOverlap => b"two edges of this clock may come in one slot",
        RefusalKind::ZeroDivisor => b"a division by zero",
        RefusalKind::UnknownName => b"an expression has a name that means nothing here",
    }
}
