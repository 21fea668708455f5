//! The operators and the words of specifiers, with their spellings.

ghost use Rattle.std.specs.Prelude.{◌≡◌};
ghost use Rattle.hs_syntax.specs.Operators.{binary_text, precedence_of, assign_text, prefix_text, postfix_text, access_text, storage_text, dropped_text, basic_text};

use hs_tokens::Place;

/// A binary operator (X3.159-1989 3.3.5 to 3.3.14).
#[derive(Clone, Copy)]
pub enum BinaryOperator {
    Multiply,
    Divide,
    Remainder,
    Add,
    Subtract,
    ShiftLeft,
    ShiftRight,
    Less,
    Greater,
    LessEqual,
    GreaterEqual,
    Equal,
    NotEqual,
    BitAnd,
    BitXor,
    BitOr,
    And,
    Or,
}

impl BinaryOperator {
    /// Its spelling.
    pub fn text(self) -> &'static str
        ensures { result.now ≡ binary_text self }
    {
        match self {
            BinaryOperator::Multiply => "*",
            BinaryOperator::Divide => "/",
            BinaryOperator::Remainder => "%",
            BinaryOperator::Add => "+",
            BinaryOperator::Subtract => "-",
            BinaryOperator::ShiftLeft => "<<",
            BinaryOperator::ShiftRight => ">>",
            BinaryOperator::Less => "<",
            BinaryOperator::Greater => ">",
            BinaryOperator::LessEqual => "<=",
            BinaryOperator::GreaterEqual => ">=",
            BinaryOperator::Equal => "==",
            BinaryOperator::NotEqual => "!=",
            BinaryOperator::BitAnd => "&",
            BinaryOperator::BitXor => "^",
            BinaryOperator::BitOr => "|",
            BinaryOperator::And => "&&",
            BinaryOperator::Or => "||",
        }
    }

    /// How tightly it binds: 10 is the tightest.
    ///
    /// Example: 10 for `*`, and 1 for `||`.
    pub fn precedence(self) -> u8
        ensures { result ≡ precedence_of self }
    {
        match self {
            BinaryOperator::Multiply | BinaryOperator::Divide | BinaryOperator::Remainder => 10,
            BinaryOperator::Add | BinaryOperator::Subtract => 9,
            BinaryOperator::ShiftLeft | BinaryOperator::ShiftRight => 8,
            BinaryOperator::Less
            | BinaryOperator::Greater
            | BinaryOperator::LessEqual
            | BinaryOperator::GreaterEqual => 7,
            BinaryOperator::Equal | BinaryOperator::NotEqual => 6,
            BinaryOperator::BitAnd => 5,
            BinaryOperator::BitXor => 4,
            BinaryOperator::BitOr => 3,
            BinaryOperator::And => 2,
            BinaryOperator::Or => 1,
        }
    }
}

/// An assignment operator (3.3.16): `=`, or an operation and `=`.
#[derive(Clone, Copy)]
pub enum AssignOperator {
    Plain,
    Multiply,
    Divide,
    Remainder,
    Add,
    Subtract,
    ShiftLeft,
    ShiftRight,
    BitAnd,
    BitXor,
    BitOr,
}

impl AssignOperator {
    /// Its spelling.
    pub fn text(self) -> &'static str
        ensures { result.now ≡ assign_text self }
    {
        match self {
            AssignOperator::Plain => "=",
            AssignOperator::Multiply => "*=",
            AssignOperator::Divide => "/=",
            AssignOperator::Remainder => "%=",
            AssignOperator::Add => "+=",
            AssignOperator::Subtract => "-=",
            AssignOperator::ShiftLeft => "<<=",
            AssignOperator::ShiftRight => ">>=",
            AssignOperator::BitAnd => "&=",
            AssignOperator::BitXor => "^=",
            AssignOperator::BitOr => "|=",
        }
    }
}

/// An operator in front of its operand (3.3.3).
#[derive(Clone, Copy)]
pub enum PrefixOperator {
    Increment,
    Decrement,
    Address,
    Dereference,
    Plus,
    Minus,
    Complement,
    Not,
}

impl PrefixOperator {
    /// Its spelling.
    pub fn text(self) -> &'static str
        ensures { result.now ≡ prefix_text self }
    {
        match self {
            PrefixOperator::Increment => "++",
            PrefixOperator::Decrement => "--",
            PrefixOperator::Address => "&",
            PrefixOperator::Dereference => "*",
            PrefixOperator::Plus => "+",
            PrefixOperator::Minus => "-",
            PrefixOperator::Complement => "~",
            PrefixOperator::Not => "!",
        }
    }
}

/// `++` or `--` after its operand (3.3.2.4).
#[derive(Clone, Copy)]
pub enum PostfixOperator {
    Increment,
    Decrement,
}

impl PostfixOperator {
    /// Its spelling.
    pub fn text(self) -> &'static str
        ensures { result.now ≡ postfix_text self }
    {
        match self {
            PostfixOperator::Increment => "++",
            PostfixOperator::Decrement => "--",
        }
    }
}

/// `.` or `->` (3.3.2.3).
#[derive(Clone, Copy, Debug, PartialEq, Eq)]
pub enum Access {
    Dot,
    Arrow,
}

impl Access {
    /// Its spelling.
    pub fn text(self) -> &'static str
        ensures { result.now ≡ access_text self }
    {
        match self {
            Access::Dot => ".",
            Access::Arrow => "->",
        }
    }
}

/// A storage word that is kept (3.5.1).
#[derive(Clone, Copy, Debug)]
pub enum Storage {
    Typedef,
    Extern,
    Static,
}

impl Storage {
    /// Its spelling.
    pub fn text(self) -> &'static str
        ensures { result.now ≡ storage_text self }
    {
        match self {
            Storage::Typedef => "typedef",
            Storage::Extern => "extern",
            Storage::Static => "static",
        }
    }
}

/// A word that means nothing here (3.5.1, 3.5.3), `pascal` of the Macintosh's compilers among them.
#[derive(Clone, Copy, Debug, PartialEq, Eq)]
pub enum Dropped {
    Auto,
    Register,
    Const,
    Volatile,
    Pascal,
}

impl Dropped {
    /// Its spelling.
    pub fn text(self) -> &'static str
        ensures { result.now ≡ dropped_text self }
    {
        match self {
            Dropped::Auto => "auto",
            Dropped::Register => "register",
            Dropped::Const => "const",
            Dropped::Volatile => "volatile",
            Dropped::Pascal => "pascal",
        }
    }
}

/// A word of a basic type (3.5.2).
#[derive(Clone, Copy)]
pub enum Basic {
    Void,
    Char,
    Short,
    Int,
    Long,
    Signed,
    Unsigned,
}

impl Basic {
    /// Its spelling.
    pub fn text(self) -> &'static str
        ensures { result.now ≡ basic_text self }
    {
        match self {
            Basic::Void => "void",
            Basic::Char => "char",
            Basic::Short => "short",
            Basic::Int => "int",
            Basic::Long => "long",
            Basic::Signed => "signed",
            Basic::Unsigned => "unsigned",
        }
    }
}

/// What stands in front of a declarator (3.5.4.1): `*`, or a word that means nothing.
#[derive(Clone, Copy, Debug, PartialEq, Eq)]
pub enum Pointer {
    Star(Place),
    Dropped(Dropped, Place),
}
