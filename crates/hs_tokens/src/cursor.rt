//! Steps through a text, past its splices (X3.159-1989 2.1.1.2, phases 1 and 2).

ghost use Rattle.std.specs.Prelude.{◌≡◌, ◌≤◌, ◌<◌, ◌+◌, ◌∷◌, ◌^◌, true, Some, length, take, drop, IfOk, nat_eq};
ghost use Rattle.std.specs.List.{starts_with};
ghost use Rattle.hs_tokens.specs.Lines.{is_itself, logical};
ghost use Rattle.hs_tokens.specs.Forms.{place_of};
ghost use Rattle.hs_tokens.specs.Cursor.{HasRoom};

use hs_base::{Pos, ends_line, next_place};
use std::alloc::{AllocError, Global};

/// Where the scanner stands in a text.
#[derive(Clone, Copy)]
pub(crate) struct Cursor<'a> {
    /// The physical bytes that follow.
    rest: &'a [u8],
    /// The place of the first of them.
    pos: Pos,
    /// How many logical bytes count at most.
    left: usize,
    ghost has_room: { HasRoom pos rest.now left },
}

/// A byte of a text, and what follows it.
#[derive(Clone, Copy)]
pub(crate) struct Step<'a> {
    pub(crate) byte: u8,
    /// The place of the byte.
    pub(crate) pos: Pos,
    /// After the byte.
    pub(crate) after: Cursor<'a>,
}

/// Whether a byte is the same in each phase, whatever stands beside it: it belongs to no splice and to no line's end.
#[inline(always)]
fn is_itself(byte: u8) -> bool
    ensures { result ≡ is_itself byte }
{
    byte != b'\\' && byte != b'\n' && byte != b'\r'
}

impl<'a> Cursor<'a> {
    ghost use Rattle.hs_tokens.specs.Ahead.{ahead, bytes_ahead, IsLine, IsNext};

    /// The start of a text.
    pub(crate) fn start(text: &'a [u8], file: u16) -> Cursor<'a>
        requires { length text.now ≤ 4194304 }
        ensures { ahead result ≡ logical file text.now }
    {
        Cursor {
            rest: text,
            pos: Pos {
                file,
                line: 1,
                col: 1,
            },
            left: text.len(),
        }
    }

    /// The first byte of phase 1: each line's end is one LF.
    #[tactic(auto, using(crate::proofs::Cursors::end_here, crate::proofs::Cursors::other_here, crate::proofs::Cursors::return_here))]
    fn line_byte(self) -> Option<Step<'a>>
        ensures { IsLine self.entry result }
    {
        let mut rest = self.rest;
        let mut pos = self.pos;
        'bytes: while let [byte, others @ ..] = rest {
            let behind = next_place(pos, *byte, others);
            let ends = ends_line(*byte, others);
            if ends || *byte != b'\r' {
                let after = Cursor {
                    rest: others,
                    pos: behind,
                    left: self.left,
                };
                let byte = if ends { b'\n' } else { *byte };
                return Some(Step { byte, pos, after });
            }
            rest = others;
            pos = behind;
        }
        None
    }

    /// The first byte of phase 2: no splices. Most bytes are found by one look at them.
    #[inline(always)]
    pub(crate) fn next(self) -> Option<Step<'a>>
        ensures { IsNext self.entry result }
    {
        if let Some((byte, others)) = self.rest.split_first() {
            if self.left > 0 && is_itself(*byte) {
                return Some(self.past(*byte, others));
            }
        }
        self.next_of_lines()
    }

    /// The first byte, if it is the same in each phase.
    #[inline(always)]
    fn past(self, byte: u8, others: &'a [u8]) -> Step<'a>
        requires some { 0 < self.left }
        requires first { self.rest.now ≡ byte ∷ others.now }
        requires is_itself { is_itself byte ≡ true }
        ensures { IsNext self.entry (Some result) }
    {
        let after = Cursor {
            rest: others,
            pos: Pos {
                file: self.pos.file,
                line: self.pos.line,
                col: self.pos.col + 1,
            },
            left: self.left - 1,
        };
        Step {
            byte,
            pos: self.pos,
            after,
        }
    }

    /// The same, by way of the bytes of phase 1.
    #[inline(never)]
    fn next_of_lines(self) -> Option<Step<'a>>
        ensures { IsNext self.entry result }
    {
        if self.left == 0 {
            return None;
        }
        let mut cursor = self;
        'splices: while let Some(step) = cursor.line_byte() {
            let Some(behind) = step.behind_splice() else {
                let after = Cursor {
                    rest: step.after.rest,
                    pos: step.after.pos,
                    left: self.left - 1,
                };
                return Some(Step {
                    byte: step.byte,
                    pos: step.pos,
                    after,
                });
            };
            cursor = behind;
        }
        None
    }

    /// So many bytes of what is ahead.
    pub(crate) fn front(self, len: usize) -> Cursor<'a>
        ensures { ahead result ≡ take len (ahead self.entry) }
    {
        Cursor {
            rest: self.rest,
            pos: self.pos,
            left: self.left.min(len),
        }
    }

    /// After so many bytes.
    pub(crate) fn behind(self, len: usize) -> Cursor<'a>
        ensures ahead { ahead result ≡ drop len (ahead self.entry) }
        ensures left { result.left ≤ self.entry.left }
    {
        let mut rest = self;
        let mut skip = len;
        'bytes: while skip > 0 {
            let Some(step) = rest.next() else {
                return rest;
            };
            rest = step.after;
            skip -= 1;
        }
        rest
    }

    /// Returns the place of the first byte, or the other place if there is no byte.
    pub(crate) fn place(self, other: Pos) -> Pos
        ensures { result ≡ place_of other (ahead self.entry) }
    {
        match self.next() {
            Some(step) => step.pos,
            None => other,
        }
    }

    /// The bytes.
    pub(crate) fn text(self, alloc: Global) -> Result<Vec<u8>, AllocError>
        ensures { IfOk result (λ text. text.items ≡ bytes_ahead self.entry) }
    {
        let mut text = Vec::with_capacity(alloc, self.left)?;
        let mut rest = self;
        'bytes: while let Some(step) = rest.next() {
            text.push(step.byte)?;
            rest = step.after;
        }
        Ok(text)
    }

    /// Whether the bytes begin with those of the text.
    pub(crate) fn starts_with(self, text: &[u8]) -> bool
        ensures { result ≡ starts_with nat_eq (bytes_ahead self.entry) text.now }
    {
        let mut rest = self;
        let mut wanted = text;
        'bytes: while let [byte, others @ ..] = wanted {
            let Some(step) = rest.next() else {
                return false;
            };
            if step.byte != *byte {
                return false;
            }
            rest = step.after;
            wanted = others;
        }
        true
    }
}

impl<'a> Step<'a> {
    ghost use Rattle.hs_tokens.specs.Ahead.{bytes_at, IsSplice};

    /// After the splice that the byte begins, if it begins one: a backslash that a line's end follows directly.
    fn behind_splice(self) -> Option<Cursor<'a>>
        ensures { IsSplice self.entry result }
    {
        if self.byte != b'\\' {
            return None;
        }
        let end = self.after.line_byte()?;
        if end.byte == b'\n' {
            Some(end.after)
        } else {
            None
        }
    }

    /// Whether the byte and those after it begin with those of the text.
    pub(crate) fn starts_with(self, text: &[u8]) -> bool
        ensures { result ≡ starts_with nat_eq (bytes_at self.entry) text.now }
    {
        match text {
            [] => true,
            [byte, others @ ..] => *byte == self.byte && self.after.starts_with(others),
        }
    }
}
