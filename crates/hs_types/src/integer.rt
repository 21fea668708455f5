//! The integer types and the conversions of their numbers (X3.159-1989 3.2.1).

ghost use Rattle.std.specs.Prelude.{◌≡◌, ◌<◌, ◌≤◌};
ghost use Rattle.hs_types.specs.Integers.{integer_size, is_signed, promoted, common, converted, sign_extended};

/// An integer type (X3.159-1989 3.1.2.5). `char` is signed.
#[derive(Clone, Copy, Debug, PartialEq, Eq, Hash)]
pub enum Integer {
    Char,
    SignedChar,
    UnsignedChar,
    Short,
    UnsignedShort,
    Int,
    UnsignedInt,
    Long,
    UnsignedLong,
}

impl Integer {
    /// Its size in bytes: 1, 2 or 4.
    pub fn size(self) -> u32
        ensures { result ≡ integer_size self }
    {
        match self {
            Integer::Char | Integer::SignedChar | Integer::UnsignedChar => 1,
            Integer::Short | Integer::UnsignedShort => 2,
            Integer::Int | Integer::UnsignedInt | Integer::Long | Integer::UnsignedLong => 4,
        }
    }

    /// Whether it has numbers below 0.
    pub fn is_signed(self) -> bool
        ensures { result ≡ is_signed self }
    {
        match self {
            Integer::Char | Integer::SignedChar | Integer::Short | Integer::Int | Integer::Long =>
                true,
            Integer::UnsignedChar
            | Integer::UnsignedShort
            | Integer::UnsignedInt
            | Integer::UnsignedLong => false,
        }
    }

    /// The type to which the integral promotions convert its numbers (X3.159-1989 3.2.1.1).
    ///
    /// Example: `int` for `unsigned short`, whose numbers an `int` of 32 bits can all hold.
    pub fn promoted(self) -> Integer
        ensures { result ≡ promoted self }
    {
        match self {
            Integer::Char
            | Integer::SignedChar
            | Integer::UnsignedChar
            | Integer::Short
            | Integer::UnsignedShort
            | Integer::Int => Integer::Int,
            Integer::UnsignedInt => Integer::UnsignedInt,
            Integer::Long => Integer::Long,
            Integer::UnsignedLong => Integer::UnsignedLong,
        }
    }

    /// The common type of two operands: the usual arithmetic conversions (X3.159-1989 3.2.1.5).
    ///
    /// Example: `unsigned long` for `long` and `unsigned int`, as a `long` of 32 bits cannot hold all numbers of the latter.
    pub fn common(self, other: Integer) -> Integer
        ensures { result ≡ common self other }
    {
        let other = other.promoted();
        match self.promoted() {
            Integer::UnsignedLong => Integer::UnsignedLong,
            Integer::Long => match other {
                Integer::UnsignedLong | Integer::UnsignedInt => Integer::UnsignedLong,
                Integer::Char
                | Integer::SignedChar
                | Integer::UnsignedChar
                | Integer::Short
                | Integer::UnsignedShort
                | Integer::Int
                | Integer::Long => Integer::Long,
            },
            Integer::UnsignedInt => match other {
                Integer::UnsignedLong | Integer::Long => Integer::UnsignedLong,
                Integer::Char
                | Integer::SignedChar
                | Integer::UnsignedChar
                | Integer::Short
                | Integer::UnsignedShort
                | Integer::Int
                | Integer::UnsignedInt => Integer::UnsignedInt,
            },
            Integer::Char
            | Integer::SignedChar
            | Integer::UnsignedChar
            | Integer::Short
            | Integer::UnsignedShort
            | Integer::Int => other,
        }
    }

    /// The number of this type to which a number is converted (X3.159-1989 3.2.1.2): as many of its low bits as the type has.
    /// A number is given by its 32 bits, and one below 0 by its two's complement.
    ///
    /// Example: 300 is 44 as a `char`, and 200 is -56, whose bits are 4294967240.
    pub fn converted(self, bits: u32) -> u32
        ensures { result ≡ converted self bits }
    {
        match self {
            Integer::Char | Integer::SignedChar => extended(256, bits),
            Integer::UnsignedChar => bits % 256,
            Integer::Short => extended(65536, bits),
            Integer::UnsignedShort => bits % 65536,
            Integer::Int | Integer::UnsignedInt | Integer::Long | Integer::UnsignedLong => bits,
        }
    }
}

/// The low bits as a number with a sign, if there are `numbers` numbers of so many bits.
fn extended(numbers: u32, bits: u32) -> u32
    requires some { 0 < numbers }
    requires short { numbers ≤ 65536 }
    ensures { result ≡ sign_extended numbers bits }
{
    let low = bits % numbers;
    if low < numbers / 2 {
        low
    } else {
        low + (u32::MAX - (numbers - 1))
    }
}
