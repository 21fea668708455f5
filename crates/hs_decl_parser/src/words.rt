//! The keywords with which statements and labels begin.

ghost use Rattle.std.specs.Prelude.{◌≡◌};
ghost use Rattle.hs_expr_parser.specs.Ahead.{spelled_so};
ghost use Rattle.hs_decl_parser.specs.Words.{statement_text, statement_words, statement_word_of, begins_label};

use hs_expr_parser::is_keyword;
use hs_tokens::{SourceToken, is_identifier};

/// A word that a statement begins with (X3.159-1989 3.6).
pub(crate) enum StatementWord {
    If,
    While,
    Do,
    For,
    Switch,
    Break,
    Continue,
    Return,
}

/// The word of that spelling that a statement begins with.
fn statement_spelled(text: &[u8]) -> Option<StatementWord>
    ensures { result ≡ spelled_so statement_text statement_words text.now }
{
    if text == b"if".as_slice() {
        Some(StatementWord::If)
    } else if text == b"while".as_slice() {
        Some(StatementWord::While)
    } else if text == b"do".as_slice() {
        Some(StatementWord::Do)
    } else if text == b"for".as_slice() {
        Some(StatementWord::For)
    } else if text == b"switch".as_slice() {
        Some(StatementWord::Switch)
    } else if text == b"break".as_slice() {
        Some(StatementWord::Break)
    } else if text == b"continue".as_slice() {
        Some(StatementWord::Continue)
    } else if text == b"return".as_slice() {
        Some(StatementWord::Return)
    } else {
        None
    }
}

/// The word that the token is, if a statement begins with it (X3.159-1989 3.6).
pub(crate) fn statement_word_of(source: &SourceToken) -> Option<StatementWord>
    ensures { result ≡ statement_word_of source.now }
{
    if is_identifier(&source.token) {
        statement_spelled(source.token.text.items())
    } else {
        None
    }
}

/// Whether the token begins a label (X3.159-1989 3.6.1).
pub(crate) fn begins_label(source: &SourceToken) -> bool
    ensures { result ≡ begins_label source.now }
{
    is_keyword(source, b"case") || is_keyword(source, b"default")
}
