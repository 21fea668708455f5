//! What objects take in memory (own; X3.159-1989 3.1.2.5 and 3.5.2.1 leave it open).

ghost use Rattle.std.specs.Prelude.{◌≡◌};
ghost use Rattle.hs_types.specs.Layouts.{integer_layout, word_layout, array_layout};

use crate::Integer;

/// The largest size of a type, in bytes.
pub(crate) const MOST_BYTES: u32 = 16_777_216;

/// What an object of a type takes in memory.
#[derive(Clone, Copy, PartialEq, Eq, Hash)]
pub struct Layout {
    /// Its size in bytes.
    pub size: u32,
    /// Whether it is aligned to 2, so that its address is even; otherwise it may be anywhere.
    pub even: bool,
    /// Whether it holds characters alone, also inside arrays and structs.
    pub characters: bool,
}

impl Layout {
    /// The layout of an integer type.
    pub(crate) fn of_integer(kind: Integer) -> Layout
        ensures { result ≡ integer_layout kind }
    {
        let size = kind.size();
        Layout {
            size,
            even: size >= 2,
            characters: size == 1,
        }
    }

    /// The layout of a pointer and of an enumeration: 4 bytes.
    pub(crate) fn word() -> Layout
        ensures { result ≡ word_layout }
    {
        Layout {
            size: 4,
            even: true,
            characters: false,
        }
    }

    /// The layout of an array of so many elements of this layout, or `None` if it is larger than a type may be.
    pub(crate) fn array(self, length: u32) -> Option<Layout>
        ensures { result ≡ array_layout length self }
    {
        let size = self.size.checked_mul(length)?;
        if size > MOST_BYTES {
            return None;
        }
        Some(Layout {
            size,
            even: self.even || size >= 2,
            characters: self.characters,
        })
    }
}
