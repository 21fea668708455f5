//! Files in memory.

ghost use Rattle.std.specs.Prelude.{◌≡◌, ◌==◌, [], Option, Some, OnErr, map};
ghost use Rattle.std.specs.Option.{option_map};
ghost use Rattle.std.specs.String.{string_bytes};
ghost use Rattle.hs_base.specs.Count.{raised};
ghost use Rattle.hs_base.specs.Files.{Listing, Counts, NeverFall, IsRead, counts_after, file_of, read_of};
ghost use Rattle.hs_memory.specs.Memory.{AnswersRead, counts_of, is_among};

use hs_base::{FileEnd, Files};
use std::marker::Model;

/// Files that are kept in memory, and fail when they are set to: for tests, and for callers that have their sources
/// at hand. They tell their listing.
#[derive(Drop)]
pub struct MemFiles {
    listing: Vec<(String, Vec<u8>)>,
    failing: Vec<u64>,
    reads: u64,
    misses: u64,
    faults: u64,
}

impl Model for MemFiles {
    ghost use Rattle.std.specs.Prelude.{map};
    ghost use Rattle.std.specs.String.{string_bytes};
    ghost use Rattle.hs_memory.specs.Memory.{MemoryFiles};

    ghost Value = { MemoryFiles };

    ghost view = { λ f. record { listing = map (λ file. (string_bytes file.0, file.1.items)) f.listing.items; failing = f.failing.items; reads = f.reads; misses = f.misses; faults = f.faults } };
}

/// Whether the number is among them.
pub(crate) fn is_listed(numbers: &[u64], number: u64) -> bool
    ensures { result ≡ is_among numbers.now number }
{
    numbers.iter().any(|n| *n == number)
}

/// The file of that name, if it is listed: the first one.
fn find_file<'a>(listing: &'a [(String, Vec<u8>)], name: &str) -> Option<&'a Vec<u8>>
    ensures { option_map (λ bytes. bytes.now.items) result ≡ file_of (map (λ file. (string_bytes file.0, file.1.items)) listing.now) name.now }
{
    for (file, bytes) in listing {
        if file.as_str() == name {
            return Some(bytes);
        }
    }
    None
}

impl MemFiles {
    /// Files with these names and bytes, of which the first counts if a name stands twice. The reads whose numbers,
    /// from 1, are in `failing` answer `Failed`.
    ///
    /// Example: with `("a.c", "int x;")` and no failing reads, a read of `a.c` puts those 6 bytes into `into` if `max` is at
    /// least 6, and a read of `b.c` answers `Missing`.
    pub fn new(listing: Vec<(String, Vec<u8>)>, failing: Vec<u64>) -> MemFiles
        ensures listing { result.listing ≡ map (λ file. (string_bytes file.0, file.1.items)) listing.items }
        ensures failing { result.failing ≡ failing.items }
        ensures reads { result.reads ≡ 0 }
        ensures misses { result.misses ≡ 0 }
        ensures faults { result.faults ≡ 0 }
    {
        MemFiles {
            listing,
            failing,
            reads: 0,
            misses: 0,
            faults: 0,
        }
    }
}

impl Files for MemFiles {
    ghost listing = { λ files. Some files.listing };

    ghost counts = { counts_of };

    fn read(&mut self, name: &str, max: usize, into: &mut Vec<u8>) -> Result<(), FileEnd>
        ensures listing_stays { Some self.new.listing ≡ Some self.old.listing }
        ensures counts_stay_up { NeverFall (counts_of self.old) (counts_of self.new) }
        ensures means { IsRead (Some self.old.listing) (read_of name.now max into.new.items result (counts_of self.old) (counts_of self.new)) }
        ensures emptied { OnErr result (into.new.items ≡ []) }
        // Which answer it is, and what it counts.
        ensures exact { AnswersRead self.old name.now max result }
        ensures failing_stays { self.new.failing ≡ self.old.failing }
        ensures reads { self.new.reads ≡ raised self.old.reads }
        ensures counted { counts_of self.new ≡ counts_after (counts_of self.old) result }
    {
        into.clear();
        self.reads = self.reads.saturating_add(1);
        if is_listed(&self.failing, self.reads) {
            self.faults = self.faults.saturating_add(1);
            return Err(FileEnd::Failed);
        }
        match find_file(&self.listing, name) {
            None => {
                self.misses = self.misses.saturating_add(1);
                Err(FileEnd::Missing)
            }
            Some(bytes) => {
                if bytes.len() > max {
                    return Err(FileEnd::TooLong);
                }
                into.extend_from_slice(bytes)?;
                Ok(())
            }
        }
    }
}
