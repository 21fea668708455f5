//! The tokens of a file, shared by its inclusions.

ghost use Rattle.std.specs.Prelude.{◌≡◌, List, IfOk};
ghost use Rattle.hs_tokens.specs.declared.token.Token.{Token};

use hs_tokens::Token;
use std::alloc::{AllocError, Global};
use std::marker::Model;
use std::rc::Rc;

/// The tokens of a file, which its inclusions share.
#[derive(Drop)]
pub(crate) struct FileTokens {
    tokens: Rc<Vec<Token>>,
}

impl Model for FileTokens {
    ghost Value = { List Token };

    ghost view = { λ file. file.tokens.value.items };
}

impl FileTokens {
    /// These tokens.
    pub(crate) fn from_vec(alloc: Global, tokens: Vec<Token>) -> Result<FileTokens, AllocError>
        ensures { IfOk result (λ file. file ≡ tokens.items) }
    {
        Ok(FileTokens {
            tokens: Rc::new(alloc, tokens)?,
        })
    }

    /// The same tokens.
    pub(crate) fn shared(&self) -> Result<FileTokens, AllocError>
        ensures { IfOk result (λ file. file ≡ self.now) }
    {
        Ok(FileTokens {
            tokens: self.tokens.clone()?,
        })
    }

    /// Lends the tokens.
    pub(crate) fn items(&self) -> &[Token]
        ensures { result.now ≡ self.now }
    {
        self.tokens.as_ref().as_slice()
    }
}
