//! From what named files were read as to the straight program that they are.

ghost use Rattle.hs_checker.specs.Source.{IsStraightOf};

use crate::straight::read;
use hs_base::NoMemory;
use hs_directives::Source;
use hs_tree::straight::Straight;
use std::alloc::Global;

/// Returns the straight program that the sources are: they must be one unit, and its tokens must spell the program.
/// Otherwise the result is `None`.
pub fn straight_of(alloc: Global, source: &Source) -> Result<Option<Straight>, NoMemory>
    ensures { IsStraightOf source.now result }
{
    let [tokens] = source.units.items() else {
        return Ok(None);
    };
    read(alloc, tokens.items())
}
