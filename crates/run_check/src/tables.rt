ghost use Rattle.std.specs.Prelude.{◌≡◌, if◌then◌else◌, IfOk, Some};
ghost use Rattle.std.specs.HashMap.{get};

use std::alloc::AllocError;
use std::collections::HashMap;
use std::hash::Hash;

/// Puts a value at a key, in the place of the one that stands there.
pub(crate) fn put<K: Eq + Hash + Drop, V: Drop>(
    table: &mut HashMap<K, V>,
    key: K,
    value: V,
) -> Result<(), AllocError>
    ensures { IfOk result
        (λ _. (other : K) → get K.eq table.new other ≡ (if K.eq key other then Some value else get K.eq table.old other)) }
{
    table.insert(key, value)?;
    Ok(())
}
