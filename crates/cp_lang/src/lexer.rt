ghost use Rattle.std.specs.Prelude.{◌≡◌, ◌<◌, [], ◌∷◌, false, length, drop, slice_index, MatchOption};
ghost use Rattle.cp_lang.specs.Lexer.{tokens_of, run, closing, mark};
ghost use Rattle.cp_lang.specs.Lexer.{spaces, first_token};
ghost use Rattle.cp_lang.specs.Tokenized.{token_of, shape_of};

use crate::cut::is_space;
use cp_spelling::is_trigger;
use std::marker::Model;

/// What a token is; words and quoted tokens are slices of the text.
#[derive(Clone, Copy)]
pub(crate) enum Shape<'a> {
    Open,
    Close,
    Colon,
    Comma,
    Word(&'a str),
    /// With its quotation marks.
    Quoted(&'a str),
    /// What can't stand anywhere.
    Stray,
}

/// A token, and the offset of its first byte in the text.
#[derive(Clone, Copy)]
pub(crate) struct Token<'a> {
    pub(crate) at: usize,
    pub(crate) shape: Shape<'a>,
}

/// The tokens of a text that are still to come. A clause sees them as a list.
#[derive(Drop)]
pub(crate) struct Lexer<'a> {
    /// What of the text is left.
    text: &'a str,
    /// The offset at which that begins.
    at: usize,
}

impl<'a> Model for Lexer<'a> {
    ghost use Rattle.std.specs.Prelude.{List, ◌+◌, ◌^◌, ◌<◌, length};
    ghost use Rattle.cp_lang.specs.Lexer.{Token};
    ghost use Rattle.cp_lang.specs.Lexer.{tokens_at};

    ghost Value = { List Token };

    ghost view = { λ l. tokens_at l.at l.text.now };

    ghost invariant = { λ l. l.at + length l.text.now < 2 ^ 64 };
}

/// How many bytes of white space the text begins with.
pub(crate) fn spaces(text: &[u8]) -> usize
    ensures { result ≡ spaces text.now }
{
    for (at, byte) in text.iter().enumerate() {
        if !is_space(*byte) {
            return at;
        }
    }
    text.len()
}

/// How many bytes stand before the first trigger.
fn run(text: &[u8]) -> usize
    ensures { result ≡ run text.now }
{
    for (at, byte) in text.iter().enumerate() {
        if is_trigger(*byte) {
            return at;
        }
    }
    text.len()
}

/// How many bytes end with the quotation mark that closes, if one does. Costs those bytes.
fn closing(text: &[u8]) -> Option<usize>
    ensures { result ≡ closing false text.now }
{
    let mut is_escaped = false;
    for (at, byte) in text.iter().enumerate() {
        if is_escaped {
            is_escaped = false;
        } else if *byte == b'"' {
            return Some(at + 1);
        } else {
            is_escaped = *byte == b'\\';
        }
    }
    None
}

/// What a trigger that is neither white space nor a quotation mark is.
fn mark<'a>(byte: u8) -> Shape<'a>
    ensures { shape_of result ≡ mark byte }
{
    match byte {
        b'{' => Shape::Open,
        b'}' => Shape::Close,
        b':' => Shape::Colon,
        b',' => Shape::Comma,
        _ => Shape::Stray,
    }
}

/// The quoted token that the text begins with, and what follows it.
fn quoted<'a>(text: &'a str) -> (Shape<'a>, &'a str)
    requires some { 0 < length text.now }
    requires opens { slice_index text.now 0 ≡ 34 }
    ensures shape { shape_of result.0 ≡ (first_token text.now).shape }
    ensures rest { result.1.now ≡ drop (first_token text.now).size text.now }
{
    match closing(&text.as_bytes()[1..]) {
        Some(size) => {
            let (token, rest) = text.split_at(size + 1);
            (Shape::Quoted(token), rest)
        }
        None => (Shape::Stray, ""),
    }
}

/// The token that the text begins with, without white space before it, and what follows. Costs the token's bytes.
fn front_token<'a>(text: &'a str) -> (Shape<'a>, &'a str)
    requires { 0 < length text.now }
    ensures shape { shape_of result.0 ≡ (first_token text.now).shape }
    ensures rest { result.1.now ≡ drop (first_token text.now).size text.now }
{
    let bytes = text.as_bytes();
    let first = bytes[0];
    if first == b'"' {
        return quoted(text);
    }
    if is_trigger(first) {
        let (_, rest) = text.split_at(1);
        return (mark(first), rest);
    }
    let (word, rest) = text.split_at(run(bytes));
    (Shape::Word(word), rest)
}

impl<'a> Lexer<'a> {
    /// All tokens of the text.
    pub(crate) fn new(text: &'a str) -> Lexer<'a>
        ensures { result ≡ tokens_of text.now }
    {
        Lexer { text, at: 0 }
    }

    /// The next token, if there is one. Costs its bytes and the white space before it.
    pub(crate) fn next(&mut self) -> Option<Token<'a>>
        ensures { MatchOption result ((self.old ≡ []) × (self.new ≡ [])) (λ t. self.old ≡ token_of t ∷ self.new) }
    {
        let skipped = spaces(self.text.as_bytes());
        let (_, text) = self.text.split_at(skipped);
        let at = self.at + skipped;
        if text.is_empty() {
            self.text = text;
            self.at = at;
            return None;
        }
        let (shape, rest) = front_token(text);
        self.text = rest;
        self.at = at + (text.len() - rest.len());
        Some(Token { at, shape })
    }
}
