//! The constants of an initialiser, found by hashing.

ghost use Rattle.std.specs.Prelude.{◌≡◌, IfOk};
ghost use Rattle.hs_scalars.specs.Left.{of_scalar};
ghost use Rattle.hs_lower_starts.specs.PartIndex.{constant_at, AreIndexed, Gains};

use crate::key::Key;
use hs_base::NoMemory;
use hs_scalars::Scalar;
use hs_tree::Part;
use indexmap::IndexMap;
use std::alloc::Global;

/// The constants for the scalars of an object. To look for the one of a scalar takes no longer if there are many.
#[derive(Drop)]
pub(crate) struct PartIndex {
    map: IndexMap<Key, Part>,
}

impl PartIndex {
    /// Those of a list. Of several for one scalar the first counts. Fails if memory runs out.
    pub(crate) fn of(alloc: Global, parts: &[Part]) -> Result<PartIndex, NoMemory>
        ensures { IfOk result (λ index. AreIndexed index.map.entries parts.now) }
    {
        let mut index = PartIndex {
            map: IndexMap::new(alloc),
        };
        'parts: for part in parts.iter().rev() {
            index = index.with(*part)?;
        }
        Ok(index)
    }

    /// With one more, which counts for its scalar.
    fn with(self, part: Part) -> Result<PartIndex, NoMemory>
        ensures { IfOk result (λ new. Gains part self.map.entries new.map.entries) }
    {
        let mut map = self.map;
        map.insert(Key::of_part(part), part)?;
        Ok(PartIndex { map })
    }

    /// The constant of a scalar, if it has one.
    pub(crate) fn part_for(&self, its: Scalar) -> Option<Part>
        ensures { result ≡ constant_at (of_scalar its) self.now.map.entries }
    {
        self.map.get(&Key::of_scalar(its)).copied()
    }
}
