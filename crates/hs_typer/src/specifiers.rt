//! Declaration specifiers (X3.159-1989 3.5.1 to 3.5.3).

ghost use Rattle.std.specs.Prelude.{◌≡◌};
ghost use Rattle.hs_names.specs.Scopes.{find};
ghost use Rattle.hs_typer.specs.Specifiers.{no_specifiers, with_word, with_basic, with_type, with_storage, has_others, integer_of, basic_of, type_from, typedef_of};
ghost use Rattle.hs_typer.specs.Steps.{Gives, mapped};

use crate::{Entity, TypeError, undeclared};
use hs_names::Scopes;
use hs_syntax::{Basic, Storage, Word};
use hs_tokens::Place;
use hs_types::{Integer, TypeId};
use std::alloc::Global;

/// The words of basic types that a list of specifiers has (3.5.2).
#[derive(Clone, Copy)]
pub struct Words {
    pub void: bool,
    pub char: bool,
    pub short: bool,
    pub int: bool,
    pub long: bool,
    pub signed: bool,
    pub unsigned: bool,
    /// Whether one of them is there twice.
    pub again: bool,
}

/// What a list of specifiers says.
#[derive(Clone, Copy)]
pub struct Specifiers {
    pub words: Words,
    /// The type of a struct, an enumeration or a typedef name, if there is one.
    pub type_id: Option<TypeId>,
    pub storage: Option<Storage>,
    /// Whether there are two such types.
    pub again: bool,
}

impl Specifiers {
    /// Nothing yet.
    pub fn new() -> Specifiers
        ensures { result ≡ no_specifiers }
    {
        let words = Words {
            void: false,
            char: false,
            short: false,
            int: false,
            long: false,
            signed: false,
            unsigned: false,
            again: false,
        };
        Specifiers {
            words,
            type_id: None,
            storage: None,
            again: false,
        }
    }

    /// With a word of a basic type.
    ///
    /// Example: `unsigned` and then `char` name `unsigned char`.
    pub fn with_basic(self, word: Basic) -> Specifiers
        ensures { result ≡ with_basic word self }
    {
        Specifiers {
            words: with_word(self.words, word),
            ..self
        }
    }

    /// With a struct, an enumeration or a typedef name.
    ///
    /// Example: two of them name no type.
    pub fn with_type(self, id: TypeId) -> Specifiers
        ensures { result ≡ with_type id self }
    {
        Specifiers {
            type_id: Some(id),
            again: self.again || self.type_id.is_some(),
            ..self
        }
    }

    /// With a storage word. Refused at the word if there is one already, or if there can be none.
    ///
    /// Example: `static` is refused in a type name.
    pub fn with_storage(
        self,
        stored: bool,
        word: Storage,
        at: Place,
    ) -> Result<Specifiers, TypeError>
        ensures { Gives (λ it. it) (with_storage stored word at self) result }
    {
        if !stored || self.storage.is_some() {
            return Err(TypeError::Untyped(at));
        }
        Ok(Specifiers {
            storage: Some(word),
            ..self
        })
    }

    /// The type that the specifiers name (3.5.2), or `int` if they name none (own). Refused at the first one.
    pub fn type_from(self, first: Place) -> Result<TypeId, TypeError>
        ensures { Gives (λ it. it) (type_from first self) result }
    {
        if self.again {
            return Err(TypeError::Untyped(first));
        }
        let type_id = match self.type_id {
            Some(_) if self.words.void || has_others(self.words) => None,
            Some(id) => Some(id),
            None => basic_of(self.words),
        };
        type_id.ok_or(TypeError::Untyped(first))
    }
}

/// The words with one more.
fn with_word(its: Words, word: Basic) -> Words
    ensures { result ≡ with_word word its }
{
    match word {
        Basic::Void => Words {
            void: true,
            again: its.again || its.void,
            ..its
        },
        Basic::Char => Words {
            char: true,
            again: its.again || its.char,
            ..its
        },
        Basic::Short => Words {
            short: true,
            again: its.again || its.short,
            ..its
        },
        Basic::Int => Words {
            int: true,
            again: its.again || its.int,
            ..its
        },
        Basic::Long => Words {
            long: true,
            again: its.again || its.long,
            ..its
        },
        Basic::Signed => Words {
            signed: true,
            again: its.again || its.signed,
            ..its
        },
        Basic::Unsigned => Words {
            unsigned: true,
            again: its.again || its.unsigned,
            ..its
        },
    }
}

/// Whether there is a word but `void`.
fn has_others(its: Words) -> bool
    ensures { result ≡ has_others its }
{
    its.char || its.short || its.int || its.long || its.signed || its.unsigned
}

/// The integer type that words name, if they name one.
fn integer_of(its: Words) -> Option<TypeId>
    ensures { result ≡ integer_of its }
{
    if its.signed && its.unsigned {
        return None;
    }
    let kind = if its.char {
        if its.short || its.int || its.long {
            return None;
        }
        if its.signed {
            Integer::SignedChar
        } else if its.unsigned {
            Integer::UnsignedChar
        } else {
            Integer::Char
        }
    } else if its.short {
        if its.long {
            return None;
        }
        if its.unsigned {
            Integer::UnsignedShort
        } else {
            Integer::Short
        }
    } else if its.long {
        if its.unsigned {
            Integer::UnsignedLong
        } else {
            Integer::Long
        }
    } else if its.unsigned {
        Integer::UnsignedInt
    } else {
        Integer::Int
    };
    Some(TypeId::integer(kind))
}

/// The basic type that words name, if they name one.
fn basic_of(its: Words) -> Option<TypeId>
    ensures { result ≡ basic_of its }
{
    if its.again {
        None
    } else if its.void {
        if has_others(its) {
            None
        } else {
            Some(TypeId::void())
        }
    } else {
        integer_of(its)
    }
}

/// The specifiers with the type that a typedef name means. Refused at the name if it means something else.
///
/// Example: `Handle` after `typedef char **Handle;`.
pub fn with_typedef(
    alloc: Global,
    names: &Scopes<Entity>,
    word: &Word,
    done: Specifiers,
) -> Result<Specifiers, TypeError>
    ensures { Gives (λ it. it) (mapped (λ id. with_type id done) (typedef_of word.now (find word.now.text names.now))) result }
{
    match names.find(word.text.items()) {
        Some(Entity::Typedef(id)) => Ok(done.with_type(id)),
        Some(Entity::Constant(_) | Entity::Variable { .. } | Entity::Function { .. }) => {
            Err(TypeError::Untyped(word.place))
        }
        None => Err(undeclared(alloc, word)?),
    }
}
