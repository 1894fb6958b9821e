// What both kinds of sheet share: the opening, the frame of a record, and the walk over the records.
ghost use Rattle.std.specs.Prelude.{◌≡◌, ◌+◌, ◌≤◌, length, if◌then◌else◌, Some, None};
ghost use Rattle.planning.specs.Checks.{first_failing};
ghost use Rattle.sheet_layout.specs.Frame.{length_of_head, framed, record_end, record_place, record_checks, records_checks, opening_checks};
ghost use Rattle.sheet_layout.specs.Numbers.{byte_at, num16};
ghost use Rattle.planning.specs.Outcomes.{Answers};
ghost use Rattle.sheets.specs.Kinds.{sizes_checks};

use crate::bytes::{u16_at, u32_at};
use crate::kind::{Kind, Opening, SheetKind};
use planning::refusal::Refusal;

// The length of the head by its kind byte and its number of facts or variables.
fn head_length(code: u8, size: u8) -> usize
    ensures { result ≡ length_of_head code size }
{
    match Kind::try_from(code) {
        Ok(Kind::Strips) => 17,
        Ok(Kind::FiniteDomain) if (1..=16).contains(&size) => 9 + 3 * size as usize,
        _ => 9,
    }
}

// The first nine bytes of a sheet of kind K: its version, length, kind, size and number of actions.
pub(crate) fn check_opening<K: SheetKind>(sheet: &[u8]) -> Result<Opening, Refusal>
    ensures { Answers (first_failing (opening_checks K.reading.kind sheet.now)) (λ o. (o.size ≡ byte_at sheet.now 6) × (o.actions ≡ num16 sheet.now 7)) result }
{
    let given = sheet.len();
    let [version, l3, l2, l1, l0, code, size, m1, m0, rest @ ..] = sheet else {
        return Err(Refusal::Length { given });
    };
    let stated = u32::from_be_bytes([*l3, *l2, *l1, *l0]) as usize;
    if given > 65536 || given != stated || 9 + rest.len() < head_length(*code, *size) {
        return Err(Refusal::Length { given });
    }
    if *version != 1 {
        return Err(Refusal::Version);
    }
    if *code != u8::from(K::kind()) {
        return Err(Refusal::Kind);
    }
    Ok(Opening {
        size: *size,
        actions: u16::from_be_bytes([*m1, *m0]),
    })
}

// The number of facts or variables, and of actions.
pub(crate) fn check_sizes(size: u8, actions: u16) -> Result<(), Refusal>
    ensures { Answers (first_failing (sizes_checks size actions)) (λ _. Unit {0}) result }
{
    if !(1..=16).contains(&size) {
        return Err(Refusal::Count { byte: 6 });
    }
    if !(1..=512).contains(&actions) {
        return Err(Refusal::Count { byte: 7 });
    }
    Ok(())
}

// The end of the record at a place, by its length.
pub(crate) fn end_of_record(sheet: &[u8], at: usize) -> usize
    requires { at + 2 ≤ length sheet.now }
    ensures { result ≡ record_end sheet.now at }
{
    at + 2 + u16_at(sheet, at) as usize
}

// The end of the record at a place, if its lengths fit.
fn frame<K: SheetKind>(sheet: &[u8], at: usize) -> Option<usize>
    requires { at ≤ length sheet.now }
    ensures { result ≡ (if framed K.reading.kind sheet.now at then Some (record_end sheet.now at) else None) }
{
    if sheet.len() - at < 6 {
        return None;
    }
    let end = end_of_record(sheet, at);
    if end < at + 6 || end > sheet.len() {
        return None;
    }
    match K::ending(sheet, at + 6, end) {
        Some(name) if name < end && end <= name + 32 => Some(end),
        _ => None,
    }
}

// The record at a place: its lengths, its price, what it names. Answers where it ends.
pub(crate) fn check_record<K: SheetKind>(sheet: &[u8], at: usize) -> Result<usize, Refusal>
    requires { at ≤ length sheet.now }
    ensures { Answers (first_failing (record_checks K.reading.kind sheet.now at)) (λ end. (end ≡ record_end sheet.now at) × (end ≤ length sheet.now)) result }
{
    let Some(end) = frame::<K>(sheet, at) else {
        return Err(Refusal::Frame { byte: at });
    };
    if u32_at(sheet, at + 2) > 1_000_000 {
        return Err(Refusal::Price { byte: at });
    }
    if !K::present(sheet, at + 6) {
        return Err(Refusal::Names { byte: at });
    }
    Ok(end)
}

// The records of a sheet with this head, one by one, and that nothing follows the last.
pub(crate) fn check_records<K: SheetKind>(sheet: &[u8], head: &K::Head) -> Result<(), Refusal>
    requires { K.reading.begins head.now ≤ length sheet.now }
    ensures { Answers (first_failing (records_checks K.reading.kind sheet.now (K.reading.count head.now) (K.reading.begins head.now))) (λ _. Unit {0}) result }
{
    let mut at = K::first_record(head);
    for _ in 0..K::actions(head) {
        at = check_record::<K>(sheet, at)?;
    }
    if at < sheet.len() {
        return Err(Refusal::Frame { byte: at });
    }
    Ok(())
}

// The place of a record by its number, in a sheet whose records passed.
pub(crate) fn locate<K: SheetKind>(sheet: &[u8], head: &K::Head, number: u16) -> usize
    requires inside { K.reading.begins head.now ≤ length sheet.now }
    requires passes { first_failing (records_checks K.reading.kind sheet.now (K.reading.count head.now) (K.reading.begins head.now)) ≡ None }
    requires below { number ≤ K.reading.count head.now }
    ensures { result ≡ record_place sheet.now number (K.reading.begins head.now) }
{
    let mut at = K::first_record(head);
    for _ in 0..number {
        at = end_of_record(sheet, at);
    }
    at
}
