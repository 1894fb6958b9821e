// Unsigned big-endian numbers at a place of a sheet.
ghost use Rattle.std.specs.Prelude.{◌≡◌, ◌+◌, ◌≤◌, length};
ghost use Rattle.sheet_layout.specs.Numbers.{byte_at, num16, num32};

// Kept: no plainer: a sheet and a place go through many functions, and each asks for other bytes behind the place, so that
// a struct of both would hold no fact.

// The byte at a place, 0 past the end.
pub(crate) fn byte_at(sheet: &[u8], at: usize) -> u8
    ensures { result ≡ byte_at sheet.now at }
{
    sheet.get(at).copied().unwrap_or(0)
}

// Kept: no plainer: a generic one over a trait of numbers with from_be_bytes needs a bound that turns a part of a slice
// into its bytes, for two bodies of one call.
pub(crate) fn u16_at(sheet: &[u8], at: usize) -> u16
    requires { at + 2 ≤ length sheet.now }
    ensures { result ≡ num16 sheet.now at }
{
    u16::from_be_bytes(sheet[at..at + 2].try_into().unwrap())
}

pub(crate) fn u32_at(sheet: &[u8], at: usize) -> u32
    requires { at + 4 ≤ length sheet.now }
    ensures { result ≡ num32 sheet.now at }
{
    u32::from_be_bytes(sheet[at..at + 4].try_into().unwrap())
}
