//! Files that note the names of what is read.

ghost use Rattle.std.specs.Prelude.{◌≡◌};
ghost use Rattle.hs_command.specs.Names.{IsNoted};

use crate::file_names::FileNames;
use hs_base::{FileEnd, Files};

/// Files that pass each read on, with its answer, and note the names that were read.
#[derive(Drop)]
pub(crate) struct NamedFiles<'a, F: Files> {
    pub(crate) files: &'a mut F,
    pub(crate) names: &'a mut FileNames,
}

impl<'a, F: Files> Files for NamedFiles<'a, F> {
    ghost listing = { λ named. F.listing named.files.now };

    ghost counts = { λ named. F.counts named.files.now };

    ghost leads_to = { λ old read new. (new.files.ghost_name ≡ old.files.ghost_name)
        × (new.names.ghost_name ≡ old.names.ghost_name)
        × F.leads_to old.files.now read new.files.now × IsNoted old.names.now read.name new.names.now };

    fn read(&mut self, name: &str, max: usize, into: &mut Vec<u8>) -> Result<(), FileEnd> {
        let read = self.files.read(name, max, into);
        // Without memory for this name, the names are no more whole, which they say when they are asked for one.
        let _ = self.names.note(name);
        read
    }
}
