// The task of a sheet of either kind, and what is asked about it.
use crate::request::Request;
use crate::rows::Row;
use heuristics::check::check_table;
use planning::task::Task;
use sheets::finite_domain::Variables;
use sheets::kind::SheetKind;
use sheets::reading::read;
use sheets::sheet::{SheetHead, read_head};
use sheets::strips::Facts;
use sheets::task::TaskOf;
use std::alloc::AllocError;

const MOST_ACTIONS: usize = 512;

impl Request<'_> {
    // What the check of the first table says, where it is asked for.
    fn checked<T: Task>(&self, task: &T) -> Row {
        // Kept: the C interface: whether the table is checked crosses as a number.
        if self.setup.check == 0 {
            return Row::default();
        }
        match check_table(task, self.first) {
            Ok(()) => Row::default(),
            Err(refusal) => refusal.into(),
        }
    }

    fn with_kind<K: SheetKind>(&mut self, sheet: &[u8], head: K::Head) -> Result<Row, AllocError> {
        let heap = self.heap;
        let mut actions = vec![in heap; K::blank(); MOST_ACTIONS]?;
        let mut prices = vec![in heap; 0u32; MOST_ACTIONS]?;
        match read::<K>(sheet, &mut actions, &mut prices) {
            Ok(_) => {
                let task = TaskOf::<K>::new(head, &actions, &prices);
                self.with_cost(&task)?;
                Ok(self.checked(&task))
            }
            Err(refusal) => Ok(refusal.into()),
        }
    }

    pub(crate) fn with_sheet(&mut self, sheet: &[u8]) -> Result<Row, AllocError> {
        // Kept: no plainer: a type parameter is chosen by a match, here with one call for each kind. The head that each
        // call takes is of that kind's type, so that no sheet is read as one of the other kind.
        match read_head(sheet) {
            Ok(SheetHead::Strips(head)) => self.with_kind::<Facts>(sheet, head),
            Ok(SheetHead::FiniteDomain(head)) => self.with_kind::<Variables>(sheet, head),
            Err(refusal) => Ok(refusal.into()),
        }
    }
}
