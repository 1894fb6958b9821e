// The functions of the C header, over numbers and bytes. None has a precondition.
ghost use Rattle.std.specs.Prelude.{◌≡◌, length};
ghost use Rattle.planning.specs.Refusals.{sentence_of};
ghost use Rattle.reader.specs.Codes.{code_of_verdict, Coded, Checked, Marked, Copied};

use crate::verdict::answer_sheet;
use planning::refusal::{Refusal, sentence};
use planning::status::Status;
use sheets::sheet::read_head;

// Kept: the C interface: a verdict crosses as one of the numbers of the C header.
fn verdict_code(status: Status) -> u8
    ensures { result ≡ code_of_verdict status }
{
    match status {
        Status::Best => 101,
        Status::Other => 102,
        Status::Stuck => 103,
        Status::Fresh => 104,
        Status::Open => 105,
        Status::Spent => 106,
    }
}

// Kept: the C interface: an answer crosses as one number, with a place beside it.

// An answer's code, or the number of its refusal, with the place of the refusal, or 0.
fn coded(answer: Result<u8, Refusal>, place: &mut u64) -> u8
    ensures { Coded (λ code. code) answer result place.new }
{
    let (code, at) = match answer {
        Ok(code) => (code, 0),
        Err(refusal) => (refusal.number(), refusal.place().number()),
    };
    *place = at;
    code
}

// A sheet of either kind: 0 where it is whole, else the number of its refusal, with the place.
#[unsafe(no_mangle)]
pub extern "C" fn lekruvas_check(sheet: &[u8], place: &mut u64) -> u8
    ensures { Checked sheet.now result place.new }
{
    coded(read_head(sheet).map(|_| 0), place)
}

// A question about a sheet: 101 best, 102 other, 103 stuck, or the number of a refusal, with its place.
#[unsafe(no_mangle)]
pub extern "C" fn lekruvas_mark(sheet: &[u8], state: u32, action: u16, place: &mut u64) -> u8
    ensures { Marked sheet.now state action result place.new }
{
    coded(answer_sheet(sheet, state, action).map(verdict_code), place)
}

// What a refusal of this number means, in English: as much as fits into the buffer. Answers the length of all of it.
#[unsafe(no_mangle)]
pub extern "C" fn lekruvas_text(number: u8, buffer: &mut [u8]) -> usize
    ensures length { result ≡ length (sentence_of number) }
    ensures copied { Copied (sentence_of number) buffer.old buffer.new }
{
    let text = sentence(number).as_bytes();
    let n = text.len().min(buffer.len());
    buffer[0..n].copy_from_slice(&text[0..n]);
    text.len()
}
