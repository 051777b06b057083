ghost use Rattle.std.specs.Prelude.{◌≡◌};
ghost use Rattle.proactor_core.specs.Counts.{within_32_bits};

/// A count, as far as 32 bits count.
pub(crate) fn in_32_bits(count: usize) -> u32
    ensures { result ≡ within_32_bits count }
{
    if count <= u32::MAX as usize {
        count as u32
    } else {
        u32::MAX
    }
}
