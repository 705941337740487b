//! Where the tokens of a text begin.

ghost use Rattle.std.specs.Prelude.{◌≡◌, ◌≤◌, ◌<◌, ◌-◌, ◌^◌, ◌+◌, length};
ghost use Rattle.scald_lex.specs.Place.{first_place, next_place, place_behind};
ghost use Rattle.netlist_import.specs.Offset.{begun, is_mark, is_opener, is_separator, is_space, may_part, offset, parting_behind, token_place, within_next};

use scald_base::Place;

/// What a byte is within.
#[derive(Clone, Copy)]
pub(crate) enum Within {
    /// Nothing that began before it.
    Between,
    /// A number or a literal.
    Word,
    /// A text in quotes.
    Text,
    /// A text, right after a backslash.
    Escape,
}

/// What begins with a byte.
#[derive(Clone, Copy)]
pub(crate) enum Begins {
    Nothing,
    /// A comma or a colon.
    Separator,
    /// Any other token.
    Token,
}

/// Which separators may stand after a token.
#[derive(Clone, Copy)]
pub(crate) enum Parting {
    Never,
    ByComma,
    /// By a comma, or by a colon.
    ByBoth,
}

fn is_space(byte: u8) -> bool
    ensures { result ≡ is_space byte }
{
    byte == b' ' || byte == b'\t' || byte == b'\n' || byte == b'\r'
}

fn is_separator(byte: u8) -> bool
    ensures { result ≡ is_separator byte }
{
    byte == b',' || byte == b':'
}

fn is_opener(byte: u8) -> bool
    ensures { result ≡ is_opener byte }
{
    byte == b'{' || byte == b'['
}

fn is_mark(byte: u8) -> bool
    ensures { result ≡ is_mark byte }
{
    is_separator(byte) || is_opener(byte) || byte == b'}' || byte == b']'
}

/// What the byte after this one is within.
fn within_next(within: Within, byte: u8) -> Within
    ensures { result ≡ within_next within byte }
{
    match within {
        Within::Between if byte == b'"' => Within::Text,
        Within::Between | Within::Word if is_space(byte) || is_mark(byte) => Within::Between,
        Within::Between | Within::Word => Within::Word,
        Within::Text if byte == b'"' => Within::Between,
        Within::Text if byte == b'\\' => Within::Escape,
        Within::Text | Within::Escape => Within::Text,
    }
}

/// Whether this separator may stand.
fn may_part(after: Parting, byte: u8) -> bool
    ensures { result ≡ may_part after byte }
{
    match after {
        Parting::Never => false,
        Parting::ByComma => byte == b',',
        Parting::ByBoth => true,
    }
}

/// What may stand after a token that begins with this byte.
fn parting_behind(byte: u8) -> Parting
    ensures { result ≡ parting_behind byte }
{
    if is_opener(byte) {
        Parting::Never
    } else if byte == b'"' {
        Parting::ByBoth
    } else {
        Parting::ByComma
    }
}

fn begun(within: Within, byte: u8) -> Begins
    ensures { result ≡ begun within byte }
{
    let is_nothing = match within {
        Within::Between => is_space(byte),
        Within::Word => !is_mark(byte),
        Within::Text | Within::Escape => true,
    };
    if is_nothing {
        Begins::Nothing
    } else if is_separator(byte) {
        Begins::Separator
    } else {
        Begins::Token
    }
}

/// How many bytes come before the token with this number, from 0. A comma or a colon that may not
/// stand counts as that token; if there is none it is the end of the text.
#[tactic(auto, unfolding(crate::specs::Offset::offset))]
fn offset_of(text: &[u8], token: u32) -> usize
    ensures is { result ≡ offset Within.Between Parting.Never token text.now }
    ensures within { result ≤ length text.now }
{
    let mut within = Within::Between;
    let mut after = Parting::Never;
    let mut left = token;
    for (at, byte) in text.iter().enumerate() {
        match begun(within, *byte) {
            Begins::Nothing => {}
            Begins::Separator => {
                if !may_part(after, *byte) {
                    return at;
                }
                after = Parting::Never;
            }
            Begins::Token => {
                if left == 0 {
                    return at;
                }
                left -= 1;
                after = parting_behind(*byte);
            }
        }
        within = within_next(within, *byte);
    }
    text.len()
}

/// The place after a byte.
fn place_behind_byte(place: Place, byte: u8) -> Place
    requires line { place.line + 1 < 2 ^ 32 }
    requires col { place.col + 1 < 2 ^ 32 }
    ensures { result ≡ next_place place byte }
{
    if byte == b'\n' {
        Place {
            line: place.line + 1,
            col: 1,
        }
    } else {
        Place {
            line: place.line,
            col: place.col + 1,
        }
    }
}

/// The place after these bytes.
pub(crate) fn place_behind(front: &[u8]) -> Place
    requires { length front.now < 2 ^ 32 - 1 }
    ensures { result ≡ place_behind first_place front.now }
{
    let mut place = Place { line: 1, col: 1 };
    for byte in front {
        place = place_behind_byte(place, *byte);
    }
    place
}

/// The place of the token with this number, from 0: of its first byte, or of the end of the text.
pub(crate) fn token_place(text: &[u8], token: u32) -> Place
    requires { length text.now < 2 ^ 32 - 1 }
    ensures { result ≡ token_place text.now token }
{
    place_behind(&text[..offset_of(text, token)])
}
