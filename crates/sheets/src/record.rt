// Records asked for by number. Their parts are parts of the sheet, given with their place.
ghost use Rattle.std.specs.Prelude.{◌≡◌, true};
ghost use Rattle.sheet_layout.specs.Frame.{framed};
ghost use Rattle.sheet_layout.specs.Strips.{strips_kind};
ghost use Rattle.sheets.specs.Kinds.{Numbered};
ghost use Rattle.sheets.specs.Records.{StripsAt, FiniteDomainAt, RecordAnswer};
ghost use Rattle.sheet_layout.specs.FiniteDomain.{finite_domain_kind};

use crate::bytes::u32_at;
use crate::finite_domain::Variables;
use crate::frame::{end_of_record, locate};
use crate::kind::{Kind, SheetKind};
use crate::reading::verify;
use crate::strips::{Facts, masks_at};
use planning::refusal::Refusal;

// A part of the sheet, and where it begins.
#[derive(Clone, Copy)]
pub struct Part<'a> {
    pub place: usize,
    pub bytes: &'a [u8],
}

// A set of facts, bit i for fact i, and where it stands.
#[derive(Clone, Copy)]
pub struct Mask {
    pub place: usize,
    pub facts: u32,
}

// Kept: a rule of the project: a record is one of two kinds, each with the parts that its sheet has.

// An action of a fact sheet.
#[derive(Clone, Copy)]
pub struct StripsRecord<'a> {
    pub place: usize,
    pub coins: u32,
    pub preconditions: Mask,
    pub adds: Mask,
    pub deletes: Mask,
    pub name: Part<'a>,
}

// An action of a sheet of variables. The bytes of a list are its pairs of a variable and a value.
#[derive(Clone, Copy)]
pub struct FiniteDomainRecord<'a> {
    pub place: usize,
    pub coins: u32,
    pub preconditions: Part<'a>,
    pub effects: Part<'a>,
    pub name: Part<'a>,
}

#[derive(Clone, Copy)]
pub enum SheetRecord<'a> {
    Strips(StripsRecord<'a>),
    FiniteDomain(FiniteDomainRecord<'a>),
}

fn strips_record(sheet: &[u8], at: usize) -> StripsRecord<'_>
    requires { framed strips_kind sheet.now at ≡ true }
    ensures { StripsAt sheet.now at result }
{
    let end = end_of_record(sheet, at);
    let masks = masks_at(sheet, at + 6);
    StripsRecord {
        place: at,
        coins: u32_at(sheet, at + 2),
        preconditions: Mask {
            place: at + 6,
            facts: masks.preconditions,
        },
        adds: Mask {
            place: at + 10,
            facts: masks.adds,
        },
        deletes: Mask {
            place: at + 14,
            facts: masks.deletes,
        },
        name: Part {
            place: at + 18,
            bytes: &sheet[at + 18..end],
        },
    }
}

fn finite_domain_record(sheet: &[u8], at: usize) -> FiniteDomainRecord<'_>
    requires { framed finite_domain_kind sheet.now at ≡ true }
    ensures { FiniteDomainAt sheet.now at result }
{
    let end = end_of_record(sheet, at);
    let effects = at + 7 + 2 * sheet[at + 6] as usize;
    let name = effects + 1 + 2 * sheet[effects] as usize;
    FiniteDomainRecord {
        place: at,
        coins: u32_at(sheet, at + 2),
        preconditions: Part {
            place: at + 7,
            bytes: &sheet[at + 7..effects],
        },
        effects: Part {
            place: effects + 1,
            bytes: &sheet[effects + 1..name],
        },
        name: Part {
            place: name,
            bytes: &sheet[name..end],
        },
    }
}

// The place of the record of an action by its number, in a sheet of kind K.
fn numbered<K: SheetKind>(sheet: &[u8], number: u16) -> Result<usize, Refusal>
    ensures { Numbered K.reading sheet.now number result }
{
    let head = verify::<K>(sheet)?;
    if number >= K::actions(&head) {
        return Err(Refusal::NoAction { action: number });
    }
    Ok(locate::<K>(sheet, &head, number))
}

// The record of an action by its number, in a sheet of either kind.
pub fn record(sheet: &[u8], number: u16) -> Result<SheetRecord<'_>, Refusal>
    ensures { RecordAnswer sheet.now number result }
{
    match Kind::of(sheet) {
        Kind::Strips => {
            let at = numbered::<Facts>(sheet, number)?;
            Ok(SheetRecord::Strips(strips_record(sheet, at)))
        }
        Kind::FiniteDomain => {
            let at = numbered::<Variables>(sheet, number)?;
            Ok(SheetRecord::FiniteDomain(finite_domain_record(sheet, at)))
        }
    }
}
