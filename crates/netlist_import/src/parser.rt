//! From the tokens of a text to its value.

ghost use Rattle.std.specs.Prelude.{◌≡◌, [], IfOk, None, OnOk, option_map};
ghost use Rattle.json.specs.Reads.{token_of};
ghost use Rattle.netlist_import.specs.Placed.{placed_of};
ghost use Rattle.netlist_import.specs.Parsed.{Parses, Took, array_in, beginning, closed_in, in_object, named, object_in, object_of, open_of, opened, run, state_of, step, valued, value_in, wants_value, with_name, with_value};

use crate::value::{Json, Member};
use indexmap::IndexSet;
use json::{Reader, Token};
use scald_base::NoMemory;
use std::alloc::Global;
use std::mem::replace;

/// The most arrays and objects that may be open.
const DEEPEST: usize = 64;

/// What is open.
#[derive(Drop)]
pub enum Open<'a> {
    /// The text, with its value if that came.
    Whole(Option<Json<'a>>),
    /// An array, by the number of its first token, with its items so far.
    Array(u32, Vec<Json<'a>>),
    Object(Object<'a>),
}

/// An object whose end is still to come.
#[derive(Drop)]
pub struct Object<'a> {
    /// The number of its first token.
    pub token: u32,
    /// The names of its members so far.
    pub names: IndexSet<&'a str>,
    pub members: Vec<Member<'a>>,
    /// The name whose value comes next.
    pub next: Option<&'a str>,
}

impl<'a> Object<'a> {
    fn new(alloc: Global, token: u32) -> Object<'a>
        ensures { object_of result ≡ in_object token [] [] None }
    {
        Object {
            token,
            names: IndexSet::new(alloc),
            members: Vec::new(alloc),
            next: None,
        }
    }

    /// Takes a value, if a name waits for one.
    fn add_value(&mut self, value: Json<'a>) -> Result<(), NoMemory>
        ensures { OnOk result (object_of self.new ≡ with_value (placed_of value.entry)
            (object_of self.old)) }
    {
        let Some(name) = self.next.take() else {
            return Ok(());
        };
        self.members.push((name, value))?;
        Ok(())
    }

    /// Takes the name of a member. False if none may stand, or the object has it already.
    fn add_name(&mut self, name: &'a str) -> Result<bool, NoMemory>
        ensures { IfOk result (λ may. Took may (with_name name.now (object_of self.old))
            (object_of self.new)) }
    {
        if self.next.is_some() {
            return Ok(false);
        }
        let Ok((_, is_new)) = self.names.insert_full(name) else {
            return Err(NoMemory);
        };
        if is_new {
            self.next = Some(name);
        }
        Ok(is_new)
    }
}

/// Why a value is not read.
#[derive(Clone, Copy)]
pub(crate) enum ParseEnd {
    /// The token of this number, from 0, goes wrong.
    Wrong(u32),
    /// Memory ran out.
    NoMemory,
}

/// What is open in a text.
#[derive(Drop)]
pub struct Parser<'a> {
    /// The innermost.
    pub inner: Open<'a>,
    /// Those around it, the outermost first.
    pub outer: Vec<Open<'a>>,
}

impl<'a> Open<'a> {
    /// Whether a value may come next.
    fn wants_value(&self) -> bool
        ensures { result ≡ wants_value (open_of self.now) }
    {
        match self {
            Open::Whole(one) => one.is_none(),
            Open::Array(_, _) => true,
            Open::Object(object) => object.next.is_some(),
        }
    }

    /// Takes a value, if one may come.
    fn add_value(&mut self, value: Json<'a>) -> Result<(), NoMemory>
        ensures { OnOk result (open_of self.new ≡ with_value (placed_of value.entry)
            (open_of self.old)) }
    {
        match self {
            Open::Whole(one) => {
                *one = Some(value);
                Ok(())
            }
            Open::Array(_, items) => {
                items.push(value)?;
                Ok(())
            }
            Open::Object(object) => object.add_value(value),
        }
    }
}

/// The array that a bracket closes, if the innermost is one.
#[tactic(auto, using(crate::proofs::Views::view_array))]
fn array_in<'a>(inner: Open<'a>) -> Option<Json<'a>>
    ensures { option_map placed_of result ≡ array_in (open_of inner.entry) }
{
    match inner {
        Open::Array(token, items) => Some(Json::Array(token, items)),
        _ => None,
    }
}

/// The object that a brace closes, if the innermost is one and no name waits for its value.
#[tactic(auto, using(crate::proofs::Views::view_object))]
fn object_in<'a>(inner: Open<'a>) -> Option<Json<'a>>
    ensures { option_map placed_of result ≡ object_in (open_of inner.entry) }
{
    match inner {
        Open::Object(
            Object {
                token,
                members,
                next: None,
                ..
            },
        ) => Some(Json::Object(token, members)),
        _ => None,
    }
}

/// The value of the text, if it came.
fn value_in<'a>(inner: Open<'a>) -> Option<Json<'a>>
    ensures { option_map placed_of result ≡ value_in (open_of inner.entry) }
{
    match inner {
        Open::Whole(one) => one,
        _ => None,
    }
}

impl<'a> Parser<'a> {
    fn new(alloc: Global) -> Parser<'a>
        ensures { state_of result ≡ beginning }
    {
        Parser {
            inner: Open::Whole(None),
            outer: Vec::new(alloc),
        }
    }

    /// Takes a value that has no parts. False if none may stand.
    fn value(&mut self, value: Json<'a>) -> Result<bool, NoMemory>
        ensures { IfOk result (λ may. Took may (valued (placed_of value.entry) (state_of self.old))
            (state_of self.new)) }
    {
        if !self.inner.wants_value() {
            return Ok(false);
        }
        self.inner.add_value(value)?;
        Ok(true)
    }

    /// Opens an array or an object. False if none may stand, or too many are open.
    fn open(&mut self, opening: Open<'a>) -> Result<bool, NoMemory>
        ensures { IfOk result (λ may. Took may (opened (open_of opening.entry) (state_of self.old))
            (state_of self.new)) }
    {
        if !self.inner.wants_value() || self.outer.len() >= DEEPEST {
            return Ok(false);
        }
        let around = replace(&mut self.inner, opening);
        self.outer.push(around)?;
        Ok(true)
    }

    /// Puts what a bracket closed into what is around it. False if there is nothing.
    fn close(&mut self, whole: Option<Json<'a>>) -> Result<bool, NoMemory>
        ensures { IfOk result (λ may. Took may
            (closed_in (option_map placed_of whole.entry) (state_of self.old).outer)
            (state_of self.new)) }
    {
        let Some(value) = whole else {
            return Ok(false);
        };
        let Some(around) = self.outer.pop() else {
            return Ok(false);
        };
        self.inner = around;
        self.inner.add_value(value)?;
        Ok(true)
    }

    fn close_array(&mut self) -> Result<bool, NoMemory>
        ensures { IfOk result (λ may. Took may
            (closed_in (array_in (state_of self.old).inner) (state_of self.old).outer)
            (state_of self.new)) }
    {
        let inner = replace(&mut self.inner, Open::Whole(None));
        self.close(array_in(inner))
    }

    fn close_object(&mut self) -> Result<bool, NoMemory>
        ensures { IfOk result (λ may. Took may
            (closed_in (object_in (state_of self.old).inner) (state_of self.old).outer)
            (state_of self.new)) }
    {
        let inner = replace(&mut self.inner, Open::Whole(None));
        self.close(object_in(inner))
    }

    /// Takes the name of a member. False if none may stand, or the object has it already.
    fn name(&mut self, name: &'a str) -> Result<bool, NoMemory>
        ensures { IfOk result (λ may. Took may (named name.now (state_of self.old))
            (state_of self.new)) }
    {
        match &mut self.inner {
            Open::Object(object) => object.add_name(name),
            _ => Ok(false),
        }
    }

    /// Takes the token with this number. False if it goes wrong; the parser is of no use then.
    fn token(&mut self, alloc: Global, number: u32, token: Token<'a>) -> Result<bool, NoMemory>
        ensures { IfOk result (λ may. Took may (step number (token_of token.entry)
            (state_of self.old)) (state_of self.new)) }
    {
        match token {
            Token::BeginObject => self.open(Open::Object(Object::new(alloc, number))),
            Token::EndObject => self.close_object(),
            Token::BeginArray => self.open(Open::Array(number, Vec::new(alloc))),
            Token::EndArray => self.close_array(),
            Token::Key(name) => self.name(name),
            Token::String(text) => self.value(Json::Text(number, text)),
            Token::Number(digits) => self.value(Json::Number(number, digits)),
            Token::Bool(value) => self.value(Json::Bool(number, value)),
            Token::Null => self.value(Json::Null(number)),
            Token::Bad => Ok(false),
        }
    }
}

/// The value that the tokens of a text are.
#[tactic(auto, unfolding(crate::specs::Parsed::run))]
pub(crate) fn parse<'a>(alloc: Global, mut reader: Reader<'a>) -> Result<Json<'a>, ParseEnd>
    ensures { Parses (run beginning 0 reader.entry) result }
{
    let mut parser = Parser::new(alloc);
    let mut number = 0u32;
    while let Some(token) = reader.next() {
        if !parser.token(alloc, number, token)? {
            return Err(ParseEnd::Wrong(number));
        }
        number = number.saturating_add(1);
    }
    match value_in(parser.inner) {
        Some(value) => Ok(value),
        None => Err(ParseEnd::Wrong(number)),
    }
}

impl From<NoMemory> for ParseEnd {
    ghost use Rattle.netlist_import.specs.declared.parser.ParseEnd.TheVariants.{NoMemory as OutOfMemory};

    ghost from_gives = { λ _ e. e ≡ OutOfMemory };

    fn from(_e: NoMemory) -> ParseEnd {
        ParseEnd::NoMemory
    }
}
