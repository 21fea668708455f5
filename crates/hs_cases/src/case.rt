//! The cases of a text.

use crate::text::parted;
use std::alloc::{AllocError, Global};

/// A text, and what is to be answered to it.
#[derive(Clone, Copy)]
pub struct Case<'a> {
    /// The first word of the heading that the case is under.
    pub kind: &'a str,
    /// The lines up to the answer, without the line feed at their end.
    pub text: &'a str,
    /// The answer that is wanted: a line, without its `=> `.
    pub wanted: &'a str,
}

/// The lines in front of an answer, as the case that they are. If they begin with a heading, its first word is the kind of this
/// case and of those after it.
fn case_of<'a>(lines: &'a str, kind: &'a str, wanted: &'a str) -> Case<'a> {
    let below_blank = lines.strip_prefix('\n').unwrap_or(lines);
    let Some(headed) = below_blank.strip_prefix("== ") else {
        return Case {
            kind,
            text: lines,
            wanted,
        };
    };
    let (heading, text) = parted(headed, "\n");
    let (kind, _) = parted(heading, " ");
    Case { kind, text, wanted }
}

/// The cases of a text, one after the other. A case is some lines, and then the line of its answer, which begins with `=> `.
/// In front of a case there may be a heading: a line that begins with `== `, perhaps after a blank one. Lines after the last
/// answer are no case. Fails if memory runs out.
///
/// Example: `"== sum\n1 + 2\n=> 3\n"` has one case, of the kind `sum`, with the text `1 + 2` and the answer `3`.
pub fn cases<'a>(alloc: Global, text: &'a str) -> Result<Vec<Case<'a>>, AllocError> {
    let mut all: Vec<Case<'a>> = Vec::new(alloc);
    let mut pieces = text.split("\n=> ");
    let mut lines = pieces.next().unwrap_or("");
    let mut kind = "";
    for piece in pieces {
        let (wanted, after) = parted(piece, "\n");
        let case = case_of(lines, kind, wanted);
        all.push(case)?;
        kind = case.kind;
        lines = after;
    }
    Ok(all)
}
