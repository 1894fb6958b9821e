// The calls of a marking. Task, heuristic, open list and table are the caller's, and handed to each call.
ghost use Rattle.std.specs.Prelude.{◌≡◌, length, OnErr};
ghost use Rattle.planning.specs.Checks.{first_failing};
ghost use Rattle.planning.specs.Histories.{fresh_numbers};
ghost use Rattle.planning.specs.Outcomes.{Answers};
ghost use Rattle.planning.specs.Search.{Started, Advanced};
ghost use Rattle.marker.specs.Calls.{memory_of, numbers_of, configuration_of, Tells, Unchanged, AdvanceAnswers, Kept};
ghost use Rattle.marker.specs.Refusals.{start_checks, advance_checks};

use crate::checks::{check_advance, check_start};
use crate::marking::Marking;
use crate::search::{Search, clear};
use planning::cost::{CostAlgebra, Record};
use planning::heuristic::Heuristic;
use planning::label::Label;
use planning::open_list::OpenList;
use planning::refusal::Refusal;
use planning::status::Status;
use planning::task::Task;
use planning::theorem::theorem_stands;

// Kept: a rule of the project: what a call asks about and the caller's things are handed to each call one by one.
impl Marking {
    pub fn fresh() -> Marking
        ensures { numbers_of result ≡ fresh_numbers }
    {
        Marking {
            status: Status::Fresh,
            turns: 0,
            limit: 0,
            state: 0,
            action: 0,
        }
    }

    // Begins anew, whatever was before. A refusal changes nothing.
    pub fn start<T: Task, H: Heuristic, L: OpenList<Cost = H::Cost>>(
        &mut self,
        task: &T,
        heuristic: &H,
        list: &mut L,
        table: &mut [Record<H::Cost>],
        state: u32,
        action: u16,
        limit: u32,
    ) -> Result<(Status, u32), Refusal>
        ensures answers { Answers (first_failing (start_checks (T.Task.model task.now) (length table.old) (L.OpenList.room list.old) state action limit)) (λ told. Tells self.new told × Started (T.Task.model task.now) H.Cost.CostAlgebra.algebra H.Cost.CostAlgebra.algebra.computed (H.Heuristic.estimated heuristic.now) state action limit table.old (configuration_of self.new table.new (L.OpenList.waiting list.new)) × L.OpenList.ordered list.new) result }
        ensures refused { OnErr result (Unchanged self.old self.new list.old list.new table.old table.new) }
        ensures room { L.OpenList.room list.new ≡ L.OpenList.room list.old }
    {
        let to = check_start(task, list, table.len(), state, action, limit)?;
        list.clear();
        clear(table, task.states() as usize);
        let mut search = Search {
            task,
            heuristic,
            list,
            table,
        };
        let stay = Label {
            cost: H::Cost::zero(),
            tagged: false,
        };
        search.offer(state, stay);
        let step = Label {
            cost: H::Cost::charge(to.coins),
            tagged: true,
        };
        search.offer(to.state, step);
        let status = search.onward(0, limit);
        *self = Marking {
            status,
            turns: 0,
            limit,
            state,
            action,
        };
        Ok((status, 0))
    }

    // Makes turns, at most as many as the budget. A refused check changes nothing; at a foreign entry the
    // turns before it stand.
    pub fn advance<T: Task, H: Heuristic, L: OpenList<Cost = H::Cost>>(
        &mut self,
        task: &T,
        heuristic: &H,
        list: &mut L,
        table: &mut [Record<H::Cost>],
        budget: u32,
    ) -> Result<(Status, u32), Refusal>
        ensures answers { AdvanceAnswers (T.Task.model task.now) H.Cost.CostAlgebra.algebra (H.Heuristic.estimated heuristic.now) L.OpenList.waiting L.OpenList.ordered budget self.old self.new list.old list.new table.old table.new (first_failing (advance_checks (T.Task.model task.now) (length table.old) (L.OpenList.room list.old) budget (numbers_of self.old))) result }
        ensures ordered { L.OpenList.ordered list.old → L.OpenList.ordered list.new }
        ensures room { L.OpenList.room list.new ≡ L.OpenList.room list.old }
    {
        check_advance(*self, task, list, table.len(), budget)?;
        let mut search = Search {
            task,
            heuristic,
            list,
            table,
        };
        search.run(self, budget)?;
        Ok(self.look())
    }

    // The status and the turns made since the start.
    pub fn look(&self) -> (Status, u32)
        ensures { Tells self.now result }
    {
        (self.status, self.turns)
    }

    // The same, with what it means where the things handed in are the marking's own.
    pub fn look_kept<T: Task, H: Heuristic, L: OpenList<Cost = H::Cost>>(
        &self,
        task: &T,
        heuristic: &H,
        list: &L,
        table: &[Record<H::Cost>],
    ) -> (Status, u32)
        ensures told { Tells self.now result }
        ensures kept { Kept H.Cost.CostAlgebra.algebra (numbers_of self.now) (T.Task.model task.now) (H.Heuristic.estimated heuristic.now) (memory_of table.now (L.OpenList.waiting list.now)) }
    {
        theorem_stands::<H::Cost>();
        let _ = task.states();
        heuristic.bounded();
        self.look()
    }
}
