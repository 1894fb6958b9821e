// Sheets of either kind.
ghost use Rattle.sheets.specs.Records.{HeadAnswer};

use crate::finite_domain::Variables;
use crate::head::{FiniteDomainHead, StripsHead};
use crate::kind::Kind;
use crate::reading::check;
use crate::strips::Facts;
use planning::refusal::Refusal;

#[derive(Clone, Copy)]
pub enum SheetHead {
    Strips(StripsHead),
    FiniteDomain(FiniteDomainHead),
}

// A whole sheet of either kind, altering nothing.
pub fn read_head(sheet: &[u8]) -> Result<SheetHead, Refusal>
    ensures { HeadAnswer sheet.now result }
{
    match Kind::of(sheet) {
        Kind::Strips => Ok(SheetHead::Strips(check::<Facts>(sheet)?)),
        Kind::FiniteDomain => Ok(SheetHead::FiniteDomain(check::<Variables>(sheet)?)),
    }
}
