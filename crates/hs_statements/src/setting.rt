//! Where a statement is.

ghost use Rattle.std.specs.Prelude.{◌≡◌};
ghost use Rattle.hs_statements.specs.Statements.{looping, switching, in_function};

use hs_types::TypeId;

/// What is around a statement.
#[derive(Clone, Copy)]
pub(crate) struct Setting {
    /// The type that the function returns.
    pub(crate) result: TypeId,
    /// Whether a loop or a switch is around it, so that `break` may be in it.
    pub(crate) breaks: bool,
    /// Whether a loop is around it, so that `continue` may be in it.
    pub(crate) loops: bool,
}

impl Setting {
    /// In the body of a loop.
    pub(crate) fn looping(self) -> Setting
        ensures { result ≡ looping self }
    {
        Setting {
            breaks: true,
            loops: true,
            ..self
        }
    }

    /// In the block of a switch.
    pub(crate) fn switching(self) -> Setting
        ensures { result ≡ switching self }
    {
        Setting {
            breaks: true,
            ..self
        }
    }

    /// In a function, with no loop and no switch around.
    pub(crate) fn in_function(id: TypeId) -> Setting
        ensures { result ≡ in_function id }
    {
        Setting {
            result: id,
            breaks: false,
            loops: false,
        }
    }
}
