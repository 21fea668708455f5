//! Cuts the tokens of a file into runs of text and directives.

ghost use Rattle.std.specs.Prelude.{◌≡◌, ◌≤◌, length};
ghost use Rattle.hs_directives.specs.Pieces.{begins_directive};
ghost use Rattle.std.specs.List.{prefix_len};
ghost use Rattle.hs_directives.specs.Ahead.{goes_on, is_text, IsFirst};

use hs_tokens::{Token, is_mark};

/// A piece of a file (X3.159-1989 3.8).
#[derive(Clone, Copy)]
pub(crate) enum Part<'a> {
    /// A run of text.
    Run(&'a [Token]),
    /// A directive: its `#`, and the tokens after that on its line.
    Directive(&'a Token, &'a [Token]),
}

/// Whether a directive begins: a `#` that is the first token on its line.
fn begins_directive(token: &Token) -> bool
    ensures { result ≡ begins_directive token.now }
{
    token.first && is_mark(b"#", token)
}

/// How many tokens are left of the line.
fn line_len(tokens: &[Token]) -> usize
    ensures len { result ≡ prefix_len goes_on tokens.now }
    ensures within { result ≤ length tokens.now }
{
    let mut rest = tokens;
    let mut len = 0;
    'tokens: while let Some((token, behind)) = rest.split_first() {
        if token.first {
            return len;
        }
        rest = behind;
        len += 1;
    }
    len
}

/// How many tokens stand before the next directive.
fn run_len(tokens: &[Token]) -> usize
    ensures len { result ≡ prefix_len is_text tokens.now }
    ensures within { result ≤ length tokens.now }
{
    let mut rest = tokens;
    let mut len = 0;
    'tokens: while let Some((token, behind)) = rest.split_first() {
        if begins_directive(token) {
            return len;
        }
        rest = behind;
        len += 1;
    }
    len
}

/// The first piece, and the tokens after it.
#[tactic(auto, using(crate::proofs::Cuts::cut_directive, crate::proofs::Cuts::cut_run))]
pub(crate) fn first_piece(tokens: &[Token]) -> Option<(Part<'_>, &[Token])>
    ensures { IsFirst tokens.now result }
{
    let (first, rest) = tokens.split_first()?;
    if begins_directive(first) {
        let (line, behind) = rest.split_at(line_len(rest));
        Some((Part::Directive(first, line), behind))
    } else {
        let (run, behind) = tokens.split_at(run_len(tokens));
        Some((Part::Run(run), behind))
    }
}
