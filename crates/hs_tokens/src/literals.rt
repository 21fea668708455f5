//! Character constants and string literals (X3.159-1989 3.1.3.4 and 3.1.4).

ghost use Rattle.std.specs.Prelude.{◌≡◌, ◌≤◌, ◌-◌, IfSome, length, drop};
ghost use Rattle.hs_tokens.specs.Literals.{character_len, content_len, escape_len, octal_escape, hex_escape};
ghost use Rattle.hs_tokens.specs.Forms.{characters};
ghost use Rattle.hs_tokens.specs.Ahead.{ahead, bytes_ahead, bytes_at, IsCharacter, IsFirstBad};

use crate::characters::{hex_digit_value, is_hex, is_octal, is_simple_escape, octal_digit_value};
use crate::cursor::{Cursor, Step};
use hs_base::Pos;

/// How many bytes stand before the closing quote, if it stands on the line (X3.159-1989 3.1.3.4, 3.1.4).
pub(crate) fn content_len(quote: u8, cursor: Cursor) -> Option<usize>
    ensures len { result ≡ content_len quote (bytes_ahead cursor.entry) }
    ensures fits { IfSome result (λ len. len ≤ cursor.entry.left) }
{
    let mut rest = cursor;
    let mut escaped = false;
    let mut len = 0;
    'bytes: while let Some(step) = rest.next() {
        if step.byte == b'\n' {
            return None;
        }
        if !escaped && step.byte == quote {
            return Some(len);
        }
        escaped = !escaped && step.byte == b'\\';
        rest = step.after;
        len += 1;
    }
    None
}

/// How many bytes one to three octal digits have, if their value is a byte.
fn octal_escape(cursor: Cursor) -> Option<usize>
    ensures { result ≡ octal_escape (bytes_ahead cursor.entry) }
{
    let mut rest = cursor.front(3);
    let mut len = 0;
    let mut value = 0;
    'digits: while let Some(step) = rest.next() {
        if !is_octal(step.byte) {
            return Some(len);
        }
        value = 8 * value + octal_digit_value(step.byte);
        if value > 255 {
            return None;
        }
        rest = step.after;
        len += 1;
    }
    Some(len)
}

/// How many bytes hexadecimal digits have, and the x before them, if their value is a byte.
fn hex_escape(cursor: Cursor) -> Option<usize>
    ensures { result ≡ hex_escape (bytes_ahead cursor.entry) }
{
    let mut rest = cursor;
    let mut len = 0;
    let mut value = 0;
    'digits: while let Some(step) = rest.next() {
        if !is_hex(step.byte) {
            break;
        }
        value = 16 * value + hex_digit_value(step.byte);
        if value > 255 {
            return None;
        }
        rest = step.after;
        len += 1;
    }
    if len == 0 { None } else { Some(len + 1) }
}

/// How many bytes an escape has after its backslash, or nothing if it is malformed (X3.159-1989 3.1.3.4).
fn escape_len(cursor: Cursor) -> Option<usize>
    ensures { result ≡ escape_len (bytes_ahead cursor.entry) }
{
    let step = cursor.next()?;
    if is_simple_escape(step.byte) {
        Some(1)
    } else if is_octal(step.byte) {
        octal_escape(cursor)
    } else if step.byte == b'x' {
        hex_escape(step.after)
    } else {
        None
    }
}

/// After the character that the byte begins, or nothing if it is a bad escape.
fn behind_character(step: Step) -> Option<Cursor>
    ensures { IsCharacter step.entry result }
{
    if step.byte == b'\\' {
        let len = escape_len(step.after)?;
        Some(step.after.behind(len))
    } else {
        Some(step.after)
    }
}

/// After the character that the byte begins, or after the backslash of a bad escape.
fn behind_any(step: Step) -> Cursor
    ensures ahead { ahead result ≡ drop (character_len (bytes_at step.entry) - 1) (ahead step.entry.after) }
    ensures left { result.left ≤ step.entry.after.left }
{
    match behind_character(step) {
        Some(behind) => behind,
        None => step.after,
    }
}

/// The place of the first bad escape of a content, if there is one.
pub(crate) fn first_bad(content: Cursor) -> Option<Pos>
    ensures { IsFirstBad (ahead content.entry) result }
{
    let mut rest = content;
    'characters: while let Some(step) = rest.next() {
        let Some(behind) = behind_character(step) else {
            return Some(step.pos);
        };
        rest = behind;
    }
    None
}

/// How many characters a content has. A bad escape counts as one, its backslash.
pub(crate) fn character_count(content: Cursor) -> usize
    ensures { result ≡ length (characters (ahead content.entry)) }
{
    let mut rest = content;
    let mut count = 0;
    'characters: while let Some(step) = rest.next() {
        rest = behind_any(step);
        count += 1;
    }
    count
}
