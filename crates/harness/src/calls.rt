// A row of calls on one fresh marking.
use crate::request::Request;
use crate::rows::{Row, Step};
use marker::mark::mark;
use marker::marking::Marking;
use planning::cost::{CostAlgebra, Record};
use planning::heuristic::Heuristic;
use planning::open_list::OpenList;
use planning::task::Task;

fn call<T: Task, H: Heuristic, L: OpenList<Cost = H::Cost>>(
    marking: &mut Marking,
    task: &T,
    heuristic: &H,
    list: &mut L,
    table: &mut [Record<H::Cost>],
    step: Step,
) -> Row {
    let Step {
        call,
        tagged,
        action,
        state,
        number,
    } = step;
    // Kept: the C interface: a call crosses as a number, which is looked at once, here.
    match call {
        0 => marking
            .start(task, heuristic, list, table, state, action, number)
            .into(),
        1 => marking.advance(task, heuristic, list, table, number).into(),
        2 => marking.look_kept(task, heuristic, list, table).into(),
        3 => mark(task, heuristic, list, table, state, action, number).into(),
        4 => list.put(state, H::Cost::charge(number), tagged != 0).into(),
        _ => list.take().is_some().into(),
    }
}

impl Request<'_> {
    pub(crate) fn play<T: Task, H: Heuristic, L: OpenList<Cost = H::Cost>>(
        &mut self,
        task: &T,
        heuristic: &H,
        list: &mut L,
        table: &mut [Record<H::Cost>],
    ) {
        let mut marking = Marking::fresh();
        for (row, step) in self.rows.iter_mut().zip(self.steps) {
            *row = call(&mut marking, task, heuristic, list, table, *step);
        }
    }
}
