//! Laws of the tokens of a text. The functions do nothing: what each states is its contract.

ghost use Rattle.scald_lex.specs.Apart.{BadTokenAtFirstCause, TokensAreApart};
ghost use Rattle.scald_lex.specs.Laws.{OneList, NotBoth, OneRefusal, RefusalsArePlaced, TokensAreLongest, TokensArePlaced, TokensOrRefusal, TokensStand};

/// A text has one list of tokens.
pub fn one_list()
    ensures { OneList }
{}

/// A text that has tokens is not refused.
pub fn not_both()
    ensures { NotBoth }
{}

/// A text is refused for one reason, at one place.
pub fn one_refusal()
    ensures { OneRefusal }
{}

/// Each text has tokens or a refusal.
pub fn tokens_or_refusal()
    ensures { TokensOrRefusal }
{}

/// The last token is the end, and those before it stand in order: each is a text of its kind, at
/// its place.
pub fn tokens_stand()
    ensures { TokensStand }
{}

/// No token is the front of a longer one that stands there.
pub fn tokens_are_longest()
    ensures { TokensAreLongest }
{}

/// A text is refused at the place of one of its bytes, or of its end.
pub fn refusals_are_placed()
    ensures { RefusalsArePlaced }
{}

/// A token stands at the place of a byte of the text, or of its end.
pub fn tokens_are_placed()
    ensures { TokensArePlaced }
{}

/// The tokens of a text are those that stand apart in it: blanks and comments lie between them, and
/// nothing else.
pub fn tokens_are_apart()
    ensures { TokensAreApart }
{}

/// A text is refused as `BadToken` exactly at its first cause: a name that is not closed, a word or
/// number that is too long, or a byte that begins no token.
pub fn bad_token_at_first_cause()
    ensures { BadTokenAtFirstCause }
{}
