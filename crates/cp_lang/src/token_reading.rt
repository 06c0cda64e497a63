ghost use Rattle.std.specs.Prelude.{◌≡◌, [], List, if◌then◌else◌};
ghost use Rattle.cp_path.specs.Place.{Label};
ghost use Rattle.cp_spelling.specs.Words.{place_reading, value_reading};
ghost use Rattle.cp_model.specs.declared.literal.Literal.TheVariants as literal;
ghost use Rattle.cp_lang.specs.Grammar.{Spot, Level, goes, cant, by_reading, reading_of, at_open, at_close, at_colon, at_word, at_label, at_place, at_name, at_file, at_number, at_tree, at_first, at_edge_end, first_edge, new_edge, close_node, after_tree};
ghost use Rattle.cp_lang.specs.Parser.{IsRead, IsReadOrRefused, spelling_fault, within, after_edge};
ghost use Rattle.cp_lang.specs.Tokenized.{shape_of};

use crate::decimal::decimal_value;
use crate::lexer::{Shape, Token};
use crate::syntax_tree::StmtFault;
use cp_path::{Label, Loc, Name, PathFault, Text, Value};
use cp_spelling::{read_label, read_place, read_text, read_value};
use std::alloc::Global;

/// The fault of a token at this offset that is wrongly spelled.
fn spelling_fault(at: usize, fault: PathFault) -> StmtFault
    ensures { result ≡ spelling_fault at fault }
{
    match fault {
        PathFault::Memory => StmtFault::Memory,
        fault => StmtFault::Place(at, fault),
    }
}

/// The label that a token is read as.
pub(crate) fn label_of<'a>(alloc: Global, token: Token<'a>) -> Result<Label, StmtFault>
    ensures reads { IsRead token.entry.at (at_label (shape_of token.entry.shape)) result }
{
    match token.shape {
        Shape::Word(word) | Shape::Quoted(word) => match read_label(alloc, word) {
            Ok(label) => Ok(label),
            Err(fault) => Err(spelling_fault(token.at, fault)),
        },
        _ => Err(StmtFault::Syntax(token.at)),
    }
}

/// The place that a word at this offset is read as.
#[tactic(auto, using(crate::proofs::Steps::fails_by))]
fn place_at(alloc: Global, at: usize, word: &str) -> Result<Loc, StmtFault>
    ensures reads { IsRead at (by_reading (place_reading word.now)) result }
{
    match read_place(alloc, word) {
        Ok(place) => Ok(place),
        Err(fault) => Err(spelling_fault(at, fault)),
    }
}

/// The place that a token is read as.
pub(crate) fn place_of<'a>(alloc: Global, token: Token<'a>) -> Result<Loc, StmtFault>
    ensures reads { IsRead token.entry.at (at_place (shape_of token.entry.shape)) result }
{
    match token.shape {
        Shape::Word(word) => place_at(alloc, token.at, word),
        Shape::Quoted(word) => place_at(alloc, token.at, word),
        _ => Err(StmtFault::Syntax(token.at)),
    }
}

/// The value that a token is read as.
pub(crate) fn value_of<'a>(alloc: Global, token: Token<'a>) -> Result<Value, StmtFault>
    ensures reads { IsRead token.entry.at (reading_of value_reading (shape_of token.entry.shape)) result }
{
    match token.shape {
        Shape::Word(word) | Shape::Quoted(word) => match read_value(alloc, word) {
            Ok(value) => Ok(value),
            Err(fault) => Err(spelling_fault(token.at, fault)),
        },
        _ => Err(StmtFault::Syntax(token.at)),
    }
}

/// The name of a source that a token is.
pub(crate) fn name_of<'a>(alloc: Global, token: Token<'a>) -> Result<Name, StmtFault>
    ensures reads { IsRead token.entry.at (at_name (shape_of token.entry.shape)) result }
{
    let Shape::Word(word) = token.shape else {
        return Err(StmtFault::Syntax(token.at));
    };
    match Name::read(alloc, word) {
        Ok(name) => {
            if name.is_target() {
                return Err(StmtFault::Syntax(token.at));
            }
            Ok(name)
        }
        Err(PathFault::Memory) => Err(StmtFault::Memory),
        Err(_) => Err(StmtFault::Syntax(token.at)),
    }
}

/// The file name that a token is read as.
pub(crate) fn file_of<'a>(alloc: Global, token: Token<'a>) -> Result<Text, StmtFault>
    ensures reads { IsRead token.entry.at (at_file (shape_of token.entry.shape)) result }
{
    let Shape::Quoted(word) = token.shape else {
        return Err(StmtFault::Syntax(token.at));
    };
    match read_text(alloc, word)? {
        Some(file) => Ok(file),
        None => Err(StmtFault::Syntax(token.at)),
    }
}

/// The number that a token is.
pub(crate) fn number_of<'a>(token: Token<'a>) -> Result<u64, StmtFault>
    ensures reads { IsReadOrRefused token.entry.at (at_number (shape_of token.entry.shape)) result }
{
    let Shape::Word(word) = token.shape else {
        return Err(StmtFault::Syntax(token.at));
    };
    match decimal_value(word.as_bytes()) {
        Some(number) => Ok(number),
        None => Err(StmtFault::Syntax(token.at)),
    }
}

/// Whether a token is this key word.
pub(crate) fn is_word<'a>(token: Token<'a>, text: &str) -> bool
    ensures { (s : Spot) → at_word text.now (shape_of token.entry.shape) s ≡ (if result then goes s else cant) }
{
    match token.shape {
        Shape::Word(word) => word == text,
        _ => false,
    }
}

/// Whether a token is an opening brace.
pub(crate) fn is_open<'a>(token: Token<'a>) -> bool
    ensures { (s : Spot) → at_open (shape_of token.entry.shape) s ≡ (if result then goes s else cant) }
{
    matches!(token.shape, Shape::Open)
}

/// Whether a token is a closing brace.
pub(crate) fn is_close<'a>(token: Token<'a>) -> bool
    ensures { (s : Spot) → at_close (shape_of token.entry.shape) s ≡ (if result then goes s else cant) }
{
    matches!(token.shape, Shape::Close)
}

/// Whether a token is a colon.
pub(crate) fn is_colon<'a>(token: Token<'a>) -> bool
    ensures { (s : Spot) → at_colon (shape_of token.entry.shape) s ≡ (if result then goes s else cant) }
{
    matches!(token.shape, Shape::Colon)
}

/// Whether a token is the closing brace of a node without edges.
pub(crate) fn is_empty_end<'a>(token: Token<'a>) -> bool
    ensures { (ls : List Level) → at_first ls (shape_of token.entry.shape) ≡ (if result then close_node ls else at_label (shape_of token.entry.shape) (new_edge ls)) }
{
    matches!(token.shape, Shape::Close)
}

/// Whether a token is the comma before one edge more, or the closing brace, or neither.
pub(crate) fn has_next<'a>(token: Token<'a>) -> Option<bool>
    ensures { (ls : List Level) → at_edge_end ls (shape_of token.entry.shape) ≡ after_edge result ls }
{
    match token.shape {
        Shape::Comma => Some(true),
        Shape::Close => Some(false),
        _ => None,
    }
}

/// Whether a token opens a node where a tree is wanted.
pub(crate) fn opens_node<'a>(token: Token<'a>) -> bool
    ensures { (a : Label) (ls : List Level) → at_tree a ls (shape_of token.entry.shape)
        ≡ (if result then goes (first_edge (within a [] ls)) else reading_of value_reading (shape_of token.entry.shape) (λ v. goes (after_tree a (literal.Leaf v) ls))) }
{
    matches!(token.shape, Shape::Open)
}
