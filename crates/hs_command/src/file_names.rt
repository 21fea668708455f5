//! The names of the files that were read, so that an error can name its file.

ghost use Rattle.std.specs.Prelude.{◌≡◌, [], ◌∷◌, ◌++◌, Some, None, IfSome, IfNone, IsSomeAnd, OnOk, slice_get};
ghost use Rattle.hs_command.specs.Names.{IsNoted};

use hs_base::Bytes;
use std::alloc::{AllocError, Global};
use std::marker::Model;

/// The names of the files that were read, in the order of reads, if there was memory for them all.
#[derive(Drop)]
pub(crate) struct FileNames {
    alloc: Global,
    vec: Vec<Bytes>,
    is_whole: bool,
}

impl Model for FileNames {
    ghost use Rattle.std.specs.Prelude.{Some, None, if◌then◌else◌};
    ghost use Rattle.hs_command.specs.Names.{Names};

    ghost Value = { Names };

    ghost view = { λ names. if names.is_whole then Some names.vec.items else None };
}

impl FileNames {
    /// No names.
    pub(crate) fn new(alloc: Global) -> FileNames
        ensures { result ≡ Some [] }
    {
        FileNames {
            alloc,
            vec: Vec::new(alloc),
            is_whole: true,
        }
    }

    /// The name of that number, from 0, if it is there.
    pub(crate) fn get(&self, number: u16) -> Option<&Bytes>
        ensures some { IfSome result (λ name. IsSomeAnd self.now (λ names. slice_get names number ≡ Some name.now)) }
        ensures none { IfNone result (IfSome self.now (λ names. slice_get names number ≡ None)) }
    {
        if self.is_whole {
            self.vec.get(usize::from(number))
        } else {
            None
        }
    }

    /// Notes one more name. If memory is refused, the names are no more whole.
    pub(crate) fn note(&mut self, name: &str) -> Result<(), AllocError>
        ensures noted { IsNoted self.old name.now self.new }
        ensures kept { OnOk result (IfSome self.old (λ names. self.new ≡ Some (names ++ name.now ∷ []))) }
    {
        let is_whole = self.is_whole;
        self.is_whole = false;
        let bytes = name.as_bytes().to_vec(self.alloc)?;
        self.vec.push(Bytes::from_vec(bytes))?;
        self.is_whole = is_whole;
        Ok(())
    }
}
