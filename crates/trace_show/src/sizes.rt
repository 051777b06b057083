use crate::detail::Detail;
use asio_types::NoMemory;
use session_script::Act;

/// Which sizes an operation may complete with where bytes are untold, by its code (`--net`); nothing of
/// what is no operation of a stream.
pub(crate) fn write_sizes_untold(detail: &mut Detail, act: &Act) -> Result<(), NoMemory> {
    match act {
        Act::ReadSome { size, .. } => detail.fill(
            "; its size is 1 to @ with ok, 0 with eof or reset",
            &[*size as u64],
        ),
        Act::ReadAll { size, .. } => detail.fill(
            "; its size is @ with ok, less with eof or reset",
            &[*size as u64],
        ),
        Act::Until { delimiter, max, .. } => detail.fill(
            "; its size is @ to @ with ok, 0 with not_found, eof or reset",
            &[delimiter.as_slice().len() as u64, *max as u64],
        ),
        other => write_sizes_written(detail, other),
    }
}

/// The same of a write.
fn write_sizes_written(detail: &mut Detail, act: &Act) -> Result<(), NoMemory> {
    match act {
        Act::WriteSome { bytes, .. } => detail.fill(
            "; its size is 1 to @ with ok, 0 with broken or reset",
            &[bytes.as_slice().len() as u64],
        ),
        Act::WriteAll { bytes, .. } => detail.fill(
            "; its size is @ with ok, less with broken or reset",
            &[bytes.as_slice().len() as u64],
        ),
        _ => Ok(()),
    }
}

/// That a composed operation that was cut off may have moved any part of its bytes.
pub(crate) fn write_sizes_cut_off(detail: &mut Detail, act: &Act) -> Result<(), NoMemory> {
    match act {
        Act::ReadAll { size, .. } => detail.field(", or any size below ", *size as u64),
        Act::WriteAll { bytes, .. } => {
            detail.field(", or any size below ", bytes.as_slice().len() as u64)
        }
        _ => Ok(()),
    }
}
