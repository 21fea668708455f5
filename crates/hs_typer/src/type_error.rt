//! Why a source is not typed.

ghost use Rattle.std.specs.Prelude.{◌≡◌, IfOk};
ghost use Rattle.hs_typer.specs.Primaries.{undeclared};
ghost use Rattle.hs_typer.specs.Steps.{no_memory, lifted_end};

use hs_base::{Bytes, NoMemory};
use hs_operand_types::OperandEnd;
use hs_syntax::Word;
use hs_tokens::Place;
use std::alloc::{AllocFailed, Global};

/// Why a source is not typed: the first refusal, in the order of the text, and in an expression the operands first.
#[derive(Debug, Drop)]
pub enum TypeError {
    /// A constraint of C is not met, or the form is one that is left out. At the position of the expression, at the name of a
    /// call for its arguments, at the name that is declared, or at the first of the specifiers.
    Untyped(Place),
    /// A name is not declared. At the name.
    Undeclared(Place, Bytes),
    /// A function is called that is neither defined nor a routine of the table. At its name in the call.
    UnknownRoutine(Place, Bytes),
    /// The declaration of a routine does not fit its role. At its name in the call. Or two bodies that begin at one brace differ. At the
    /// later brace, with the name of its first member or constant.
    Clash(Place, Bytes),
    /// Memory ran out.
    NoMemory,
}

impl From<OperandEnd> for TypeError {
    ghost from_gives = { λ why e. e ≡ lifted_end why };

    fn from(why: OperandEnd) -> TypeError {
        match why {
            OperandEnd::Untyped(at) => TypeError::Untyped(at),
            OperandEnd::NoMemory => TypeError::NoMemory,
        }
    }
}

impl From<NoMemory> for TypeError {
    ghost from_gives = { λ _ e. e ≡ no_memory };

    fn from(_refused: NoMemory) -> TypeError {
        TypeError::NoMemory
    }
}

impl<T: Drop> From<AllocFailed<T>> for TypeError {
    ghost from_gives = { λ _ e. e ≡ no_memory };

    fn from(_refused: AllocFailed<T>) -> TypeError {
        TypeError::NoMemory
    }
}

/// The refusal of a name that is not declared. Fails if memory runs out.
///
/// Example: of a name `x` it is `Undeclared` at its place, with `x`.
pub fn undeclared(alloc: Global, word: &Word) -> Result<TypeError, NoMemory>
    ensures { IfOk result (λ why. why ≡ undeclared word.now) }
{
    let name = copied(alloc, word.text.items())?;
    Ok(TypeError::Undeclared(word.place, name))
}

/// A copy of these bytes. Fails if memory runs out.
///
/// Example: of the name of a function, for a tree that names it.
pub fn copied(alloc: Global, bytes: &[u8]) -> Result<Bytes, NoMemory>
    ensures { IfOk result (λ copy. copy ≡ bytes.now) }
{
    Ok(Bytes::from_vec(bytes.to_vec(alloc)?))
}
