// Reading a whole sheet of either kind: its head alone, or with its actions and prices.
ghost use Rattle.std.specs.Prelude.{◌≡◌, ◌≤◌, length, None};
ghost use Rattle.planning.specs.Checks.{first_failing};
ghost use Rattle.planning.specs.Outcomes.{Answers};
ghost use Rattle.sheets.specs.Kinds.{checks_of, Checked, OneContent, entering, priced, Filled, ReadInto};

use crate::bytes::u32_at;
use crate::frame::{check_opening, check_records, end_of_record};
use crate::kind::SheetKind;
use planning::refusal::Refusal;

// The checks of a sheet of kind K, and its head by the places of its numbers.
pub(crate) fn verify<K: SheetKind>(sheet: &[u8]) -> Result<K::Head, Refusal>
    ensures { Answers (first_failing (checks_of K.reading sheet.now)) (K.reading.HeadAt sheet.now) result }
{
    let opening = check_opening::<K>(sheet)?;
    let head = K::head(sheet, opening)?;
    check_records::<K>(sheet, &head)?;
    Ok(head)
}

// A whole sheet of kind K, altering nothing.
pub fn check<K: SheetKind>(sheet: &[u8]) -> Result<K::Head, Refusal>
    ensures checked { Checked K.reading sheet.now result }
    ensures unique { OneContent K.reading sheet.now }
{
    verify::<K>(sheet)
}

// Copies the records of a sheet that passed its checks and has this head.
fn fill<K: SheetKind>(sheet: &[u8], head: &K::Head, actions: &mut [K::Action], prices: &mut [u32])
    requires passes { first_failing (checks_of K.reading sheet.now) ≡ None }
    requires head { K.reading.HeadAt sheet.now head.now }
    requires room { (K.reading.count head.now ≤ length actions.old) × (K.reading.count head.now ≤ length prices.old) }
    ensures { (c : K.reading.Content) → K.reading.LaidOut sheet.now c → Filled (entering K.reading) (K.reading.actions c) actions.old actions.new × Filled priced (K.reading.actions c) prices.old prices.new }
{
    let mut at = K::first_record(head);
    // Kept: tried, and the proof did not close: after `actions.iter_mut().zip(prices.iter_mut())` a proof knows the lengths
    // of the tables and not their entries.
    for i in 0..K::actions(head) as usize {
        actions[i] = K::action_at(sheet, at + 6);
        prices[i] = u32_at(sheet, at + 2);
        at = end_of_record(sheet, at);
    }
}

// Kept: a rule of the project: reading fills two tables of the caller's, one of actions and one of prices.

// A whole sheet of kind K into the caller's tables, which a refusal leaves untouched.
pub fn read<K: SheetKind>(
    sheet: &[u8],
    actions: &mut [K::Action],
    prices: &mut [u32],
) -> Result<K::Head, Refusal>
    ensures { ReadInto K.reading sheet.now actions.old prices.old actions.new prices.new result }
{
    let head = verify::<K>(sheet)?;
    let needed = K::actions(&head) as usize;
    if actions.len() < needed || prices.len() < needed {
        return Err(Refusal::Short { needed });
    }
    fill::<K>(sheet, &head, actions, prices);
    Ok(head)
}
