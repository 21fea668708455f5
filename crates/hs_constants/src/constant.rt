//! The value of a token that is an operand: a constant, or an identifier, which is 0 (X3.159-1989 3.8.1).

ghost use Rattle.std.specs.Prelude.{◌≡◌};
ghost use Rattle.hs_constants.specs.Conditions.{plain, constant_of};

use crate::characters::character_value;
use crate::number::number_value;
use crate::value::Value;
use hs_tokens::{Token, TokenKind};

/// A value that divides nothing by 0.
fn plain(bits: u32, unsigned: bool) -> Value
    ensures { result ≡ plain bits unsigned }
{
    Value {
        bits,
        unsigned,
        fails: false,
    }
}

/// The value of a token that is an operand by itself: a constant, or an identifier, which is 0 (X3.159-1989 3.8.1).
pub(crate) fn constant_of(token: &Token) -> Option<Value>
    ensures { result ≡ constant_of token.now }
{
    let text = token.text.items();
    match token.kind {
        TokenKind::Identifier => Some(plain(0, false)),
        TokenKind::Number => {
            let number = number_value(text)?;
            Some(plain(number.value, number.unsigned || number.value >= 0x8000_0000))
        }
        TokenKind::Character => {
            let bits = character_value(text)?;
            Some(plain(bits, false))
        }
        TokenKind::Literal | TokenKind::Punctuator => None,
    }
}
