//! What a byte of a text may stand for. The symbols `(` to `-` are neighbours, and so are `:` to
//! `>`.

ghost use Rattle.std.specs.Prelude.{◌≡◌};
ghost use Rattle.scald_base.specs.Word.{is_letter, is_digit, is_word_byte};
ghost use Rattle.scald_lex.specs.Bytes.{is_space, is_allowed, is_name_byte, is_comment_byte, is_symbol};

/// A letter: `A` to `Z`, `a` to `z`.
pub fn is_letter(byte: u8) -> bool
    ensures { result ≡ is_letter byte }
{
    b'A' <= byte && byte <= b'Z' || b'a' <= byte && byte <= b'z'
}

/// A digit: `0` to `9`.
pub fn is_digit(byte: u8) -> bool
    ensures { result ≡ is_digit byte }
{
    b'0' <= byte && byte <= b'9'
}

/// What may stand in a word after its first letter: a letter, a digit or `_`.
pub fn is_word_byte(byte: u8) -> bool
    ensures { result ≡ is_word_byte byte }
{
    is_letter(byte) || is_digit(byte) || byte == b'_'
}

/// What stands between tokens: a tabulator, a carriage return or a space.
pub fn is_space(byte: u8) -> bool
    ensures { result ≡ is_space byte }
{
    byte == b'\t' || byte == b'\r' || byte == b' '
}

/// What a text may hold: ` ` to `~`, a tabulator, the end of a line or a carriage return.
pub fn is_allowed(byte: u8) -> bool
    ensures { result ≡ is_allowed byte }
{
    b' ' <= byte && byte <= b'~' || byte == b'\t' || byte == b'\n' || byte == b'\r'
}

/// What may stand between the quotes of a name: ` ` to `~`, but no `"`.
pub fn is_name_byte(byte: u8) -> bool
    ensures { result ≡ is_name_byte byte }
{
    b' ' <= byte && byte <= b'~' && byte != b'"'
}

/// What may stand in a comment: any byte but the end of a line.
pub fn is_comment_byte(byte: u8) -> bool
    ensures { result ≡ is_comment_byte byte }
{
    byte != b'\n'
}

/// What stands for itself: one of `! & ( ) * + , - / : ; < = > [ ] { }`.
pub fn is_symbol(byte: u8) -> bool
    ensures { result ≡ is_symbol byte }
{
    matches!(byte, b'!' | b'&' | b'('..=b'-' | b'/' | b':'..=b'>' | b'[' | b']' | b'{' | b'}')
}
