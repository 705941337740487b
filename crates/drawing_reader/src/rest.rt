//! The tokens that are still to be read, which take room only as long as they are.

ghost use Rattle.std.specs.Prelude.{◌≡◌, ◌≤◌, length, slice_get};
ghost use Rattle.drawing_reader.specs.Reader.{other_tokens};

use scald_lex::{PackedList, PackedToken, Token};
use std::marker::Model;

/// Each time so many tokens are left, the room of those that were read is given back.
const GIVEN_BACK: usize = 65_536;

/// Tokens that are still to be read. The next one lies last, so that the room of those before it
/// can be given back; contracts see them in the order of the text.
#[derive(Drop)]
pub struct Rest {
    backwards: Vec<PackedToken>,
}

impl Model for Rest {
    ghost use Rattle.std.specs.Prelude.{List, reverse};
    ghost use Rattle.scald_lex.specs.declared.token.Token.{Token as Lexed};

    ghost Value = { List Lexed };

    ghost view = { λ r. reverse r.backwards.items };
}

impl Rest {
    /// All tokens of a text.
    pub fn of(tokens: PackedList) -> Rest
        ensures { result ≡ tokens }
    {
        let mut backwards = tokens.into_vec();
        backwards.reverse();
        Rest { backwards }
    }

    /// The next token, or `None` if none is left.
    #[inline(always)]
    pub fn first(&self) -> Option<Token>
        ensures { result ≡ slice_get self.now 0 }
    {
        match self.backwards.last() {
            None => None,
            Some(token) => Some(token.token()),
        }
    }

    /// The token after the next one, or `None` if there is none.
    #[inline(always)]
    pub fn second(&self) -> Option<Token>
        ensures { result ≡ slice_get self.now 1 }
    {
        let count = self.backwards.len();
        if count < 2 {
            return None;
        }
        Some(self.backwards[count - 2].token())
    }

    /// Goes past the next token, if one is left.
    #[inline(always)]
    pub fn advance(&mut self)
        ensures rest { self.new ≡ other_tokens self.old }
        ensures no_longer { length self.new ≤ length self.old }
    {
        let _taken = self.backwards.pop();
        give_back(&mut self.backwards);
    }
}

/// Gives back the room of tokens that were read, now and then.
#[inline(always)]
fn give_back(tokens: &mut Vec<PackedToken>)
    ensures { tokens.new.items ≡ tokens.old.items }
{
    if tokens.len() % GIVEN_BACK == 0 {
        tokens.shrink_to_fit();
    }
}
