//! The files that were read, in order.

ghost use Rattle.std.specs.Prelude.{◌≡◌, ◌∷◌, [], ◌++◌, ◌<◌, ◌≤◌, List, length, IfOk, OnOk};

use crate::state::{File, KnownFile};
use std::alloc::{AllocError, Global};
use std::marker::Model;

/// The files so far, in the order of first reads: at most 256.
#[derive(Drop)]
pub(crate) struct FilesRead {
    vec: Vec<File>,
}

impl Model for FilesRead {
    ghost use Rattle.std.specs.Prelude.{◌≤◌, List, length};
    ghost use Rattle.hs_directives.specs.declared.state.File.{File};

    ghost Value = { List File };

    ghost view = { λ files. files.vec.items };

    ghost invariant = { λ files. length files.vec.items ≤ 256 };
}

impl FilesRead {
    ghost use Rattle.hs_directives.specs.States.{known_from};

    /// No files.
    pub(crate) fn new(alloc: Global) -> FilesRead
        ensures { result ≡ [] }
    {
        FilesRead {
            vec: Vec::new(alloc),
        }
    }

    /// How many.
    pub(crate) fn len(&self) -> u16
        ensures len { result ≡ length self.now }
        ensures within { result ≤ 256 }
    {
        self.vec.len() as u16
    }

    /// The file of that name, if it was read.
    pub(crate) fn known(&self, name: &[u8]) -> Result<Option<KnownFile>, AllocError>
        ensures { IfOk result (λ known. known ≡ known_from 0 name.now self.now) }
    {
        let mut number = 0;
        let mut rest = self.vec.as_slice();
        'files: while let Some((file, behind)) = rest.split_first() {
            if file.name.items() == name {
                return Ok(Some(KnownFile {
                    number,
                    tokens: file.tokens.shared()?,
                }));
            }
            rest = behind;
            number += 1;
        }
        Ok(None)
    }

    /// One more file.
    pub(crate) fn push(&mut self, file: File) -> Result<(), AllocError>
        requires { length self.old < 256 }
        ensures { OnOk result (self.new ≡ self.old ++ file ∷ []) }
    {
        self.vec.push(file)?;
        Ok(())
    }

    /// The files.
    pub(crate) fn into_vec(self) -> Vec<File>
        ensures { result.items ≡ self }
    {
        self.vec
    }
}
