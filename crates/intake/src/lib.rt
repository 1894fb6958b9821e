// Bytes from a source that may send too many.
#![tactic(auto)]

ghost use Rattle.std.specs.Prelude.{◌≤◌, IfOk, vec_len};

use std::alloc::Global;
use std::io;
use std::io::Read;

// The first bytes of a source, up to a number of them or up to its end.
pub fn read_at_most<R: Read>(source: &mut R, heap: Global, most: usize) -> io::Result<Vec<u8>>
    ensures { IfOk result (λ v. vec_len v ≤ most) }
{
    let mut bytes = Vec::new(heap);
    let mut chunk = [0u8; 4096];
    let mut rest = source.take(most as u64);
    // Kept: no plainer: each turn reads a byte at least, so that the loop ends whatever the source answers. `read_to_end`
    // asks for memory before it reads, and tries again for as long as the source says that it was interrupted.
    for _ in 0..most {
        let got = rest.read(&mut chunk)?;
        if got == 0 {
            break;
        }
        bytes.extend_from_slice(&chunk[..got])?;
    }
    Ok(bytes)
}
