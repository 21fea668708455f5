//! From a text to its tokens: the call for other crates.

ghost use Rattle.std.specs.Prelude.{◌≡◌, ◌≤◌, ◌⊎◌, length, IfOk, IfErr, Ok, Err};
ghost use Rattle.hs_tokens.specs.Forms.{form_len};
ghost use Rattle.hs_tokens.specs.Scan.{scan_of};
ghost use Rattle.hs_tokens.specs.Ahead.{form};

use crate::cursor::Cursor;
use crate::forms::{Part, part_ahead};
use crate::scan_error::ScanError;
use crate::text::Text;
use crate::token::Token;
use hs_base::{Bytes, LimitKind};
use std::alloc::Global;
use std::rc::Rc;

/// How many bytes the part has.
fn part_len(part: Part) -> usize
    ensures { result ≡ form_len (form part) }
{
    match part {
        Part::Blank | Part::LineEnd | Part::Refused(_) => 1,
        Part::Comment(len) | Part::Token(_, len) => len,
    }
}

/// The tokens of a text (X3.159-1989 2.1.1.2, phases 1 to 3), if there is room for so many. The bound keeps lines and
/// columns within their type.
///
/// Example: `x = 1; /* set */` has the tokens `x`, `=`, `1` and `;`.
pub fn scan(alloc: Global, text: &[u8], file: u16, room: usize) -> Result<Vec<Token>, ScanError>
    requires { length text.now ≤ 4194304 }
    ensures tokens { IfOk result (λ tokens. scan_of file room text.now ≡ Ok tokens.items) }
    ensures error { IfErr result (λ error. (error ≡ ScanError.NoMemory) ⊎ (scan_of file room text.now ≡ Err error)) }
{
    let mut tokens = Vec::new(alloc);
    let mut rest = Cursor::start(text, file);
    // The tokens share these bytes, and `start` of them are in front of `rest`.
    let bytes = Rc::new(alloc, Bytes::from_vec(rest.text(alloc)?))?;
    let mut start: usize = 0;
    let mut first = true;
    let mut spaced = false;
    'parts: while let Some(step) = rest.next() {
        let part = part_ahead(rest);
        match part {
            Part::Blank | Part::Comment(_) => spaced = true,
            Part::LineEnd => {
                first = true;
                spaced = true;
            }
            Part::Token(kind, len) => {
                if tokens.len() == room {
                    return Err(ScanError::Limit(LimitKind::Scanned.passed()));
                }
                let text = Text::part(&bytes, start, len)?;
                tokens.push(Token {
                    kind,
                    text,
                    pos: step.pos,
                    first,
                    spaced,
                })?;
                first = false;
                spaced = false;
            }
            Part::Refused(error) => return Err(error),
        }
        // The step is after the part's first byte already.
        let others = part_len(part).saturating_sub(1);
        rest = step.after.behind(others);
        start = start.saturating_add(1 + others);
    }
    Ok(tokens)
}
