use crate::failure::Failure;
use session_script::{Script, read_script};
use std::alloc::Global;

/// The script of a text.
pub(crate) fn script_of(alloc: Global, text: &str) -> Result<Script, Failure> {
    match read_script(alloc, text.as_bytes()) {
        Ok(script) => Ok(script),
        Err(_) => Err(Failure::Refused),
    }
}
