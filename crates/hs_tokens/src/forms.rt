//! What begins at a byte, and how long it is (X3.159-1989 2.1.1.2, phase 3).

ghost use Rattle.std.specs.Prelude.{◌≡◌, ◌≤◌, ◌<◌, ◌+◌, ◌∷◌, [], map, nat_eq, IfSome, false, if◌then◌else◌};
ghost use Rattle.std.specs.List.{prefix_len, starts_with};
ghost use Rattle.hs_base.specs.Text.{is_word_byte};
ghost use Rattle.hs_tokens.specs.Forms.{begins_number, number_len, comment_len_after, longest_of, punctuators, punctuator_len, plain_form, form_of};
ghost use Rattle.hs_tokens.specs.Ahead.{ahead, bytes_ahead, bytes_at, form, IsGood, comment_ahead, character_ahead, literal_ahead};

use crate::characters::is_blank;
use crate::cursor::{Cursor, Step};
use crate::literals::{character_count, content_len, first_bad};
use crate::scan_error::ScanError;
use crate::token::TokenKind;
use hs_base::{Pos, is_digit, is_letter, is_word_byte};

/// What begins at a byte (X3.159-1989 2.1.1.2 phase 3).
#[derive(Clone, Copy)]
pub(crate) enum Part {
    /// A space, tab, VT or FF.
    Blank,
    /// A line's end.
    LineEnd,
    /// A comment of so many bytes.
    Comment(usize),
    /// A token of so many bytes.
    Token(TokenKind, usize),
    /// What is refused.
    Refused(ScanError),
}

/// The operators and punctuators (X3.159-1989 3.1.5 and 3.1.6). `sizeof` is a word.
const PUNCTUATORS: [&str; 48] = [
    "[", "]", "(", ")", "{", "}", ".", "->", "++", "--", "&", "*", "+", "-", "~", "!", "/", "%",
    "<<", ">>", "<", ">", "<=", ">=", "==", "!=", "^", "|", "&&", "||", "?", ":", "=", "*=", "/=",
    "%=", "+=", "-=", "<<=", ">>=", "&=", "^=", "|=", ",", "#", "##", ";", "...",
];

/// How many bytes of words are ahead.
fn word_len(cursor: Cursor) -> usize
    ensures { result ≡ prefix_len is_word_byte (bytes_ahead cursor.entry) }
{
    let mut rest = cursor;
    let mut len = 0;
    'bytes: while let Some(step) = rest.next() {
        if !is_word_byte(step.byte) {
            return len;
        }
        rest = step.after;
        len += 1;
    }
    len
}

/// Whether a preprocessing number is ahead (X3.159-1989 3.1.8).
fn begins_number(cursor: Cursor) -> bool
    ensures { result ≡ begins_number (bytes_ahead cursor.entry) }
{
    let Some(step) = cursor.next() else {
        return false;
    };
    if is_digit(step.byte) {
        return true;
    }
    if step.byte != b'.' {
        return false;
    }
    match step.after.next() {
        Some(next) => is_digit(next.byte),
        None => false,
    }
}

/// How many bytes the preprocessing number ahead has (X3.159-1989 3.1.8).
fn number_len(cursor: Cursor) -> usize
    ensures { result ≡ number_len (bytes_ahead cursor.entry) }
{
    let mut rest = cursor;
    let mut exponent = false;
    let mut len = 0;
    'bytes: while let Some(step) = rest.next() {
        if is_word_byte(step.byte) || step.byte == b'.' {
            exponent = step.byte == b'e' || step.byte == b'E';
        } else if exponent && (step.byte == b'+' || step.byte == b'-') {
            exponent = false;
        } else {
            return len;
        }
        rest = step.after;
        len += 1;
    }
    len
}

/// How many bytes a comment has after its opening, or nothing if the text leaves it open (X3.159-1989 3.1.9).
fn comment_len(cursor: Cursor) -> Option<usize>
    ensures len { result ≡ comment_len_after false (bytes_ahead cursor.entry) }
    ensures fits { IfSome result (λ len. len ≤ cursor.entry.left) }
{
    let mut rest = cursor;
    let mut star = false;
    let mut len = 0;
    'bytes: while let Some(step) = rest.next() {
        len += 1;
        if star && step.byte == b'/' {
            return Some(len);
        }
        star = step.byte == b'*';
        rest = step.after;
    }
    None
}

/// How long the longest of the texts is that the bytes begin with, or 0 if they begin with none.
fn longest_of(texts: &[&str], step: Step) -> usize
    ensures { result ≡ longest_of (map (λ text. text.now) texts.now) (bytes_at step.entry) }
{
    let mut longest = 0;
    for text in texts {
        if step.starts_with(text.as_bytes()) {
            longest = text.len().max(longest);
        }
    }
    longest
}

/// Whether the byte is ahead.
#[inline(always)]
fn is_ahead(byte: u8, cursor: Cursor) -> bool
    ensures { result ≡ starts_with nat_eq (bytes_ahead cursor.entry) (byte ∷ []) }
{
    match cursor.next() {
        Some(step) => step.byte == byte,
        None => false,
    }
}

/// One byte more, if it is so.
fn longer(is: bool, len: usize) -> usize
    requires { len < 4 }
    ensures { result ≡ (if is then len + 1 else len) }
{
    if is { len + 1 } else { len }
}

/// How long the operator or punctuator ahead is, or 0 if none is: by its first byte, and those that may follow it.
#[tactic(auto, unfolding(crate::specs::Forms::punctuators))]
fn punctuator_len(step: Step) -> usize
    ensures { result ≡ punctuator_len (bytes_at step.entry) }
{
    match step.byte {
        b'(' | b')' | b',' | b';' | b'{' | b'}' | b'[' | b']' | b'~' | b'?' | b':' => 1,
        b'=' | b'*' | b'!' | b'/' | b'%' | b'^' => longer(is_ahead(b'=', step.after), 1),
        b'#' => longer(is_ahead(b'#', step.after), 1),
        b'+' => longer(is_ahead(b'+', step.after) || is_ahead(b'=', step.after), 1),
        b'&' => longer(is_ahead(b'&', step.after) || is_ahead(b'=', step.after), 1),
        b'|' => longer(is_ahead(b'|', step.after) || is_ahead(b'=', step.after), 1),
        b'-' => longer(
            is_ahead(b'>', step.after) || is_ahead(b'-', step.after) || is_ahead(b'=', step.after),
            1,
        ),
        b'.' => longest_of(&[".", "..."], step),
        b'<' => longest_of(&["<", "<=", "<<", "<<="], step),
        b'>' => longest_of(&[">", ">=", ">>", ">>="], step),
        _ => longest_of(&PUNCTUATORS, step),
    }
}

/// The comment whose opening is at that place, with the rest after the opening.
fn comment(pos: Pos, rest: Cursor) -> Part
    ensures { form result ≡ comment_ahead pos rest.entry }
{
    match comment_len(rest) {
        Some(len) => Part::Comment(len + 2),
        None => Part::Refused(ScanError::OpenComment(pos)),
    }
}

/// The character constant whose opening quote is at that place, with the rest after the quote: one to four bytes
/// (X3.159-1989 3.1.3.4, and own).
fn character(pos: Pos, rest: Cursor) -> Part
    ensures { form result ≡ character_ahead pos rest.entry }
{
    let Some(len) = content_len(b'\'', rest) else {
        return Part::Refused(ScanError::OpenString(pos));
    };
    if len == 0 {
        return Part::Refused(ScanError::OpenString(pos));
    }
    let content = rest.front(len);
    match first_bad(content) {
        Some(bad) => Part::Refused(ScanError::BadByte(bad)),
        None if character_count(content) < 5 => Part::Token(TokenKind::Character, len + 2),
        None => Part::Refused(ScanError::BadByte(pos)),
    }
}

/// The token, or the refusal of the first bad escape of its content.
fn good(content: Cursor, token: Part) -> Part
    ensures { IsGood (ahead content.entry) (form token) (form result) }
{
    match first_bad(content) {
        Some(bad) => Part::Refused(ScanError::BadByte(bad)),
        None => token,
    }
}

/// The string literal whose opening quote is at that place, with the rest after the quote. One that begins with `\p`
/// counts at most 255 bytes. If it has more, its `\p` is refused before any bad escape (X3.159-1989 3.1.4, and own).
fn literal(pos: Pos, rest: Cursor) -> Part
    ensures { form result ≡ literal_ahead pos rest.entry }
{
    let Some(len) = content_len(b'"', rest) else {
        return Part::Refused(ScanError::OpenString(pos));
    };
    let content = rest.front(len);
    let token = Part::Token(TokenKind::Literal, len + 2);
    if !content.starts_with(b"\\p") {
        return good(content, token);
    }
    let counted = content.behind(2);
    if character_count(counted) < 256 {
        good(counted, token)
    } else {
        Part::Refused(ScanError::BadByte(rest.place(pos)))
    }
}

/// A token that is no literal, or a byte that begins none.
fn plain(pos: Pos, cursor: Cursor) -> Part
    ensures { form result ≡ plain_form pos (bytes_ahead cursor.entry) }
{
    let Some(step) = cursor.next() else {
        return Part::Refused(ScanError::BadByte(pos));
    };
    if is_letter(step.byte) {
        return Part::Token(TokenKind::Identifier, word_len(cursor));
    }
    if begins_number(cursor) {
        return Part::Token(TokenKind::Number, number_len(cursor));
    }
    let len = punctuator_len(step);
    if len == 0 {
        Part::Refused(ScanError::BadByte(pos))
    } else {
        Part::Token(TokenKind::Punctuator, len)
    }
}

/// What begins at the cursor. A token is the longest that can be made (X3.159-1989 3.1).
pub(crate) fn part_ahead(cursor: Cursor) -> Part
    ensures { form result ≡ form_of (ahead cursor.entry) }
{
    let Some(step) = cursor.next() else {
        return Part::Blank;
    };
    if step.byte == b'\n' {
        Part::LineEnd
    } else if is_blank(step.byte) {
        Part::Blank
    } else if step.byte == b'/' && is_ahead(b'*', step.after) {
        comment(step.pos, step.after.behind(1))
    } else if step.byte == b'"' {
        literal(step.pos, step.after)
    } else if step.byte == b'\'' {
        character(step.pos, step.after)
    } else {
        plain(step.pos, cursor)
    }
}
