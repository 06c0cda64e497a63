ghost use Rattle.std.specs.Prelude.{◌≡◌};
ghost use Rattle.cp_lang.specs.Grammar.{after_question, after_start, at_start};
ghost use Rattle.cp_lang.specs.Parser.{at_verb};
ghost use Rattle.cp_lang.specs.Tokenized.{shape_of};

use crate::lexer::{Shape, Token};

/// The first word of a statement.
#[derive(Clone, Copy, PartialEq, Eq, Drop)]
pub(crate) enum Verb {
    Ins,
    Del,
    Copy,
    Commit,
    Abort,
    Load,
    Src,
    Hist,
    Mod,
    Trace,
    From,
    Show,
    Records,
    Stats,
}

/// The verb that a word is: the operations and what goes with them, then the questions.
fn verb_from(word: &str) -> Option<Verb>
    ensures { after_start word.now ≡ at_verb result }
{
    match word {
        "ins" => Some(Verb::Ins),
        "del" => Some(Verb::Del),
        "copy" => Some(Verb::Copy),
        "commit" => Some(Verb::Commit),
        "abort" => Some(Verb::Abort),
        "load" => Some(Verb::Load),
        _ => question(word),
    }
}

/// The verb of a question that a word is.
fn question(word: &str) -> Option<Verb>
    ensures { after_question word.now ≡ at_verb result }
{
    match word {
        "src" => Some(Verb::Src),
        "hist" => Some(Verb::Hist),
        "mod" => Some(Verb::Mod),
        "trace" => Some(Verb::Trace),
        "from" => Some(Verb::From),
        "show" => Some(Verb::Show),
        "records" => Some(Verb::Records),
        "stats" => Some(Verb::Stats),
        _ => None,
    }
}

/// The verb that a token is.
pub(crate) fn verb_of<'a>(token: Token<'a>) -> Option<Verb>
    ensures { at_start (shape_of token.entry.shape) ≡ at_verb result }
{
    match token.shape {
        Shape::Word(word) => verb_from(word),
        _ => None,
    }
}
