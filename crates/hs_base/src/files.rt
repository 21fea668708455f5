//! The trait of files: what a read means.

ghost use Rattle.std.specs.Prelude.{◌≡◌, [], Option, OnErr};
ghost use Rattle.hs_base.specs.Files.{Listing, Counts, NeverFall, Read, IsRead, read_of};

use crate::FileEnd;

/// Files by name. What a read means is `IsRead` of `specs/Files.antt`, over three things that code does not see:
/// the listing, if it is known, which never changes, and the counts of misses and of faults, which never fall.
pub trait Files {
    /// The files, by name, if the object tells them.
    ghost listing: { Self → Option Listing };

    /// How many reads found no file of their name, and how many failed.
    ghost counts: { Self → Counts };

    /// What a read makes of the object: its name, the most bytes that were asked for, what it gave, and the counts before it
    /// and after it. Generic code can state this only by making that read, so a call whose clause has it made that read
    /// and no other, and the read gave just that.
    ghost leads_to: { Self → Read → Self → Type 0 } = { λ _ _ _. Unit {0} };

    /// Puts the bytes of the named file into `into`, instead of what was there, if it has at most `max` bytes.
    /// After a refusal `into` is empty.
    fn read(&mut self, name: &str, max: usize, into: &mut Vec<u8>) -> Result<(), FileEnd>
        ensures listing_stays { listing self.new ≡ listing self.old }
        ensures counts_stay_up { NeverFall (counts self.old) (counts self.new) }
        ensures one_read { leads_to self.old (read_of name.now max into.new.items result (counts self.old) (counts self.new)) self.new }
        ensures means { IsRead (listing self.old) (read_of name.now max into.new.items result (counts self.old) (counts self.new)) }
        ensures emptied { OnErr result (into.new.items ≡ []) };
}
