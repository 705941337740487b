//! Texts with their tokens, and texts with the place where they are refused.

ghost use Rattle.std.specs.Prelude.{◌<◌, ◌-◌, ◌^◌, length};

use crate::rows::{expect_eq, expect_list};
use scald_base::{Place, Refusal, RefusalKind, Stop};
use scald_lex::{Token, TokenKind, tokens};
use std::alloc::Global;
use std::process::Abort;

const fn token(kind: TokenKind, line: u32, col: u32, start: u32, end: u32) -> Token {
    Token {
        kind,
        place: Place { line, col },
        start,
        end,
    }
}

fn expect_tokens(rt: &impl Abort, alloc: Global, name: &str, text: &[u8], want: &[Token])
    requires { length text.now < 2 ^ 32 - 1 }
{
    match tokens(alloc, text) {
        Ok(list) => expect_list(rt, name, list.as_slice(), want),
        Err(stop) => expect_eq(rt, name, &Some(stop), &None),
    }
}

fn expect_refused(
    rt: &impl Abort,
    alloc: Global,
    name: &str,
    text: &[u8],
    kind: RefusalKind,
    line: u32,
    col: u32,
)
    requires { length text.now < 2 ^ 32 - 1 }
{
    let place = Place { line, col };
    let want = Stop::Refused(Refusal { kind, place });
    expect_eq(rt, name, &tokens(alloc, text).err(), &Some(want));
}

#[test]
fn texts_have_tokens(rt: HostRuntime) {
    let a = rt.alloc();
    let end = TokenKind::End;
    let word = TokenKind::Word;
    expect_tokens(&rt, a, "nothing", b"", &[token(end, 1, 1, 0, 0)]);
    expect_tokens(&rt, a, "a last line", b"\n", &[token(end, 2, 1, 1, 1)]);
    expect_tokens(
        &rt,
        a,
        "a comment ends with its line",
        b"-- \"x\n y",
        &[token(word, 2, 2, 7, 8), token(end, 2, 3, 8, 8)],
    );
    expect_tokens(
        &rt,
        a,
        "a comment with an arrow's tip",
        b"a-->b",
        &[token(word, 1, 1, 0, 1), token(end, 1, 6, 5, 5)],
    );
    expect_tokens(
        &rt,
        a,
        "an arrow and a dash",
        b"->-\t-",
        &[
            token(TokenKind::Arrow, 1, 1, 0, 2),
            token(TokenKind::Symbol(b'-'), 1, 3, 2, 3),
            token(TokenKind::Symbol(b'-'), 1, 5, 4, 5),
            token(end, 1, 6, 5, 5),
        ],
    );
    expect_tokens(
        &rt,
        a,
        "a range and a sign",
        b"\"OP\"<0>=1\r\n",
        &[
            token(TokenKind::Name, 1, 1, 0, 4),
            token(TokenKind::Symbol(b'<'), 1, 5, 4, 5),
            token(TokenKind::Number(0), 1, 6, 5, 6),
            token(TokenKind::Symbol(b'>'), 1, 7, 6, 7),
            token(TokenKind::Symbol(b'='), 1, 8, 7, 8),
            token(TokenKind::Number(1), 1, 9, 8, 9),
            token(end, 2, 1, 11, 11),
        ],
    );
    expect_tokens(
        &rt,
        a,
        "numbers end before letters",
        b"8x 50",
        &[
            token(TokenKind::Number(8), 1, 1, 0, 1),
            token(word, 1, 2, 1, 2),
            token(TokenKind::Number(50), 1, 4, 3, 5),
            token(end, 1, 6, 5, 5),
        ],
    );
    expect_tokens(
        &rt,
        a,
        "the greatest number, and zeros before it",
        b"0009223372036854775807",
        &[
            token(TokenKind::Number(9223372036854775807), 1, 1, 0, 22),
            token(end, 1, 23, 22, 22),
        ],
    );
    expect_tokens(
        &rt,
        a,
        "the longest word",
        b"a123456789b123456789c123456789d123456789e123456789f123456789_ABC",
        &[token(word, 1, 1, 0, 64), token(end, 1, 65, 64, 64)],
    );
}

#[test]
fn each_symbol_is_a_token(rt: HostRuntime) {
    for symbol in b";:,()<>[]{}=+-*/&!" {
        let want = [
            token(TokenKind::Symbol(*symbol), 1, 1, 0, 1),
            token(TokenKind::End, 1, 2, 1, 1),
        ];
        expect_tokens(&rt, rt.alloc(), "a symbol alone", &[*symbol], &want);
    }
}

#[test]
fn bytes_are_refused(rt: HostRuntime) {
    let a = rt.alloc();
    let bad = RefusalKind::BadByte;
    let comment = b"-- caf\xc3\xa9\n.";
    expect_refused(&rt, a, "in a comment", b"-- caf\xe9", bad, 1, 7);
    expect_refused(&rt, a, "before any token", comment, bad, 1, 7);
    expect_refused(&rt, a, "on a later line", b".\n\n a\0", bad, 3, 3);
    expect_refused(&rt, a, "behind the printable ones", b"\x7f", bad, 1, 1);
}

#[test]
fn tokens_are_refused(rt: HostRuntime) {
    let a = rt.alloc();
    let bad = RefusalKind::BadToken;
    let lines = b"SCALD 1;\nCLOCK 8 x 50;\nDRAWING A;\nc1 : BUF [0:0] (\"CK";
    let word = b"a123456789b123456789c123456789d123456789e123456789f123456789_ABCD";
    expect_refused(&rt, a, "a name up to the end", lines, bad, 4, 17);
    expect_refused(&rt, a, "a name over two lines", b" \"A\nB\"", bad, 1, 2);
    expect_refused(&rt, a, "a tabulator in a name", b"\"A\tB\"", bad, 1, 1);
    expect_refused(&rt, a, "a word of 65 bytes", word, bad, 1, 1);
    let number = b"1 9223372036854775808";
    expect_refused(&rt, a, "a number too large", number, bad, 1, 3);
    let number = b"99999999999999999999999";
    expect_refused(&rt, a, "a number far too large", number, bad, 1, 1);
    expect_refused(&rt, a, "no token begins so", b"a\n1 .P", bad, 2, 3);
}
