//! The values of character constants (X3.159-1989 3.1.3.4).

ghost use Rattle.std.specs.Prelude.{◌≡◌, ◌≤◌, ◌+◌, ◌-◌, length, take};
ghost use Rattle.hs_tokens.specs.Literals.{octal_value, hex_value, octal_escape, hex_escape, escape_len};
ghost use Rattle.hs_constants.specs.Characters.{escape_value, character_value};
ghost use Rattle.hs_constants.specs.Escapes.{len_of, IsCharacter};

use crate::digits::{Base, digits_ahead};

/// An escape, without its backslash. A bad one has no length.
#[derive(Clone, Copy)]
struct Escape {
    value: u8,
    len: usize,
}

/// The character at the front of a content, and what follows it.
#[derive(Clone, Copy)]
pub(crate) struct Character<'a> {
    pub(crate) value: u8,
    pub(crate) behind: &'a [u8],
}

/// One to three octal digits (X3.159-1989 3.1.3.4).
fn octal_escape(bytes: &[u8]) -> Escape
    ensures len { result.len ≡ len_of (octal_escape bytes.now) }
    ensures value { result.value ≡ octal_value 0 (take result.len bytes.now) }
    ensures within { result.len ≤ length bytes.now }
{
    match digits_ahead(Base::Octal, &bytes[..bytes.len().min(3)]) {
        Some(digits) if digits.value <= 255 => Escape {
            value: digits.value as u8,
            len: digits.len,
        },
        _ => Escape { value: 0, len: 0 },
    }
}

/// Hexadecimal digits, of which there is one at least, and the x before them (X3.159-1989 3.1.3.4).
fn hex_escape(bytes: &[u8]) -> Escape
    ensures len { result.len ≡ len_of (hex_escape bytes.now) }
    ensures value { result.value ≡ hex_value 0 (take (result.len - 1) bytes.now) }
    ensures within { result.len ≤ length bytes.now + 1 }
{
    match digits_ahead(Base::Hex, bytes) {
        Some(digits) if digits.value <= 255 && digits.len > 0 => Escape {
            value: digits.value as u8,
            len: digits.len + 1,
        },
        _ => Escape { value: 0, len: 0 },
    }
}

/// The escape after a backslash (X3.159-1989 3.1.3.4).
fn escape_ahead(bytes: &[u8]) -> Escape
    ensures len { result.len ≡ len_of (escape_len bytes.now) }
    ensures value { result.value ≡ escape_value result.len bytes.now }
    ensures within { result.len ≤ length bytes.now }
{
    let Some((byte, after)) = bytes.split_first() else {
        return Escape { value: 0, len: 0 };
    };
    let (value, len) = match *byte {
        b'0'..=b'7' => return octal_escape(bytes),
        b'x' => return hex_escape(after),
        b'\'' | b'"' | b'?' | b'\\' => (*byte, 1),
        b'a' => (7, 1),
        b'b' => (8, 1),
        b't' => (9, 1),
        b'n' => (10, 1),
        b'v' => (11, 1),
        b'f' => (12, 1),
        b'r' => (13, 1),
        _ => (*byte, 0),
    };
    Escape { value, len }
}

/// The character at the front of a content (X3.159-1989 3.1.3.4).
pub(crate) fn character_ahead(content: &[u8]) -> Option<Character<'_>>
    ensures { IsCharacter content.now result }
{
    let (byte, after) = content.split_first()?;
    if *byte != b'\\' {
        return Some(Character {
            value: *byte,
            behind: after,
        });
    }
    let escape = escape_ahead(after);
    Some(Character {
        value: escape.value,
        behind: &after[escape.len..],
    })
}

/// The 32 bits of a character constant of one to four characters, with its quotes (X3.159-1989 3.1.3.4).
///
/// Example: `'A'` is 65, and `'AB'` is 0x4142.
pub fn character_value(text: &[u8]) -> Option<u32>
    ensures { result ≡ character_value text.now }
{
    let [_, content @ .., _] = text else {
        return None;
    };
    let mut rest = content;
    let mut bits: u32 = 0;
    let mut count: usize = 0;
    'characters: while let Some(character) = character_ahead(rest) {
        if count == 4 {
            return None;
        }
        bits = 256 * bits + character.value as u32;
        count += 1;
        rest = character.behind;
    }
    match count {
        0 => None,
        1 if bits >= 128 => Some(bits + 0xffff_ff00),
        _ => Some(bits),
    }
}
