//! From the named files to the report of their check.

ghost use Rattle.std.specs.Prelude.{◌≡◌, map};
ghost use Rattle.std.specs.String.{string_bytes};
ghost use Rattle.hs_base.specs.Files.{NeverFall};
ghost use Rattle.hs_base.specs.Reads.{Makes, MadeReads};
ghost use Rattle.hs_directives.specs.Reads.{AreFirstReads};
ghost use Rattle.hs_command.specs.Report.{IsReportOf, IsReportOfTree, IsVerdict};

use crate::file_names::FileNames;
use crate::reading::{read_noting, refused};
use hs_base::{Files, NoMemory};
use hs_checker::{check, straight_of};
use hs_directives::Source;
use hs_report::Report;
use hs_table::built_in;
use hs_tree::straight::Straight;
use std::alloc::Global;

/// The report of a straight program.
fn tree_verdict(alloc: Global, tree: &Straight) -> Report
    ensures { IsReportOfTree tree.now result }
{
    match check(alloc, tree) {
        Ok(count) => {
            if count == 0 {
                Report::Accepted
            } else {
                Report::Hazards(count)
            }
        }
        Err(_) => Report::NoMemory,
    }
}

/// The report of sources that are a typed program.
fn verdict(alloc: Global, source: &Source) -> Report
    ensures { IsReportOf source.now result }
{
    match straight_of(alloc, source) {
        Ok(Some(tree)) => tree_verdict(alloc, &tree),
        Ok(None) => Report::Unbuilt,
        Err(NoMemory) => Report::NoMemory,
    }
}

/// What is to be said of the named files.
pub(crate) fn judge<F: Files>(alloc: Global, files: &mut F, roots: &[String]) -> Report
    ensures listing_stays { F.listing files.new ≡ F.listing files.old }
    ensures counts_stay_up { NeverFall (F.counts files.old) (F.counts files.new) }
    ensures means { MadeReads (Makes F.leads_to F.listing F.counts) files.old files.new
        (λ reads. AreFirstReads (map string_bytes roots.now) reads × IsVerdict reads (map string_bytes roots.now) result) }
{
    let Ok(table) = built_in(alloc) else {
        return Report::NoMemory;
    };
    let mut names = FileNames::new(alloc);
    match read_noting(alloc, files, &mut names, roots, table) {
        Ok(read) => verdict(alloc, &read.0),
        Err(error) => refused(alloc, &names, error),
    }
}
