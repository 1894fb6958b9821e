// Rows of calls on one marking, for programs in other languages that compare or time the library. Nothing is promised of
// it but that it is safe and returns.
#![tactic(auto)]

mod calls;
mod kinds;
mod parts;
mod request;
pub mod rows;

use request::Request;
use rows::{Row, Setup, Step};
use std::alloc::Global;

// Reads a sheet, makes its task and the parts that are chosen, and makes the calls; false where there was no memory.
#[unsafe(no_mangle)]
pub extern "C" fn harness_play(
    heap: Global,
    setup: &Setup,
    sheet: &[u8],
    first: &[u32],
    second: &[u32],
    steps: &[Step],
    rows: &mut [Row],
    top: &mut Row,
) -> bool {
    let mut request = Request {
        heap,
        setup,
        first,
        second,
        steps,
        rows,
    };
    match request.with_sheet(sheet) {
        Ok(row) => {
            *top = row;
            true
        }
        Err(_) => false,
    }
}
