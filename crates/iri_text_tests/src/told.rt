// What a value that has no getters holds, as its `Debug` tells it.
use std::alloc::Global;
use std::fmt::Debug;
use std::test::Fail;

pub(crate) fn tells<T: Debug>(alloc: Global, value: &T, parts: &[&str]) -> Result<bool, Fail> {
    let told = format!(in alloc; "{value:?}")?;
    for part in parts {
        if !told.as_str().contains(*part) {
            return Ok(false);
        }
    }
    Ok(true)
}
