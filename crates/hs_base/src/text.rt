//! The bytes of words, the ends of lines, and the place after a byte.

ghost use Rattle.std.specs.Prelude.{◌≡◌, ◌<◌, ◌+◌, ◌^◌};
ghost use Rattle.hs_base.specs.Text.{is_digit, is_letter, is_word_byte, ends_line, next_place};

use crate::Pos;

/// Whether the byte is one of `0` to `9`.
pub fn is_digit(byte: u8) -> bool
    ensures { result ≡ is_digit byte }
{
    matches!(byte, b'0'..=b'9')
}

/// Whether the byte is a letter of the alphabet, or the underscore, which counts as one (X3.159-1989 3.1.2).
pub fn is_letter(byte: u8) -> bool
    ensures { result ≡ is_letter byte }
{
    matches!(byte, b'A'..=b'Z' | b'a'..=b'z' | b'_')
}

/// Whether the byte is one of identifiers and numbers.
///
/// Example: `a`, `_` and `7` are, `-` is not.
pub fn is_word_byte(byte: u8) -> bool
    ensures { result ≡ is_word_byte byte }
{
    is_letter(byte) || is_digit(byte)
}

/// Whether the byte, with this text after it, is the last of its line. A line ends at LF, CR or CR LF.
///
/// Example: In `a`, CR, LF, the LF ends the line and the CR does not.
pub fn ends_line(byte: u8, after: &[u8]) -> bool
    ensures { result ≡ ends_line byte after.now }
{
    match byte {
        b'\n' => true,
        b'\r' => !matches!(after, [b'\n', ..]),
        _ => false,
    }
}

/// The place of what follows a byte at that place, with this text after it.
///
/// Example: After `a` at line 3, column 5, comes line 3, column 6; after a LF there, line 4, column 1.
pub fn next_place(place: Pos, byte: u8, after: &[u8]) -> Pos
    requires line { place.line + 1 < 2 ^ 32 }
    requires col { place.col + 1 < 2 ^ 32 }
    ensures { result ≡ next_place place byte after.now }
{
    if ends_line(byte, after) {
        Pos {
            file: place.file,
            line: place.line + 1,
            col: 1,
        }
    } else {
        Pos {
            file: place.file,
            line: place.line,
            col: place.col + 1,
        }
    }
}
