// One whole marking: start, advance until it is not open, look.
ghost use Rattle.std.specs.Prelude.{◌≡◌, length, OnErr};
ghost use Rattle.planning.specs.Checks.{first_failing};
ghost use Rattle.planning.specs.Outcomes.{Answers};
ghost use Rattle.marker.specs.Calls.{memory_of};
ghost use Rattle.marker.specs.Marked.{Marked};
ghost use Rattle.marker.specs.Refusals.{start_checks};

use crate::marking::Marking;
use planning::cost::Record;
use planning::heuristic::Heuristic;
use planning::open_list::OpenList;
use planning::refusal::Refusal;
use planning::status::Status;
use planning::task::Task;
use planning::theorem::theorem_stands;

// Kept: a rule of the project: what a call asks about and the caller's things are handed to it one by one.

// Whether a cheapest solution from a state begins with an action, found in at most as many turns as the limit.
pub fn mark<T: Task, H: Heuristic, L: OpenList<Cost = H::Cost>>(
    task: &T,
    heuristic: &H,
    list: &mut L,
    table: &mut [Record<H::Cost>],
    state: u32,
    action: u16,
    limit: u32,
) -> Result<(Status, u32), Refusal>
    ensures answers { Answers (first_failing (start_checks (T.Task.model task.now) (length table.old) (L.OpenList.room list.old) state action limit)) (λ told. Marked (T.Task.model task.now) H.Cost.CostAlgebra.algebra (H.Heuristic.estimated heuristic.now) (memory_of table.new (L.OpenList.waiting list.new)) state action limit told × L.OpenList.ordered list.new) result }
    ensures refused { OnErr result ((list.new ≡ list.old) × (table.new ≡ table.old)) }
    ensures room { L.OpenList.room list.new ≡ L.OpenList.room list.old }
{
    theorem_stands::<H::Cost>();
    heuristic.bounded();
    let _ = task.states();
    let mut marking = Marking::fresh();
    let mut told = marking.start(task, heuristic, list, table, state, action, limit)?;
    while let Status::Open = told.0 {
        told = marking.advance(task, heuristic, list, table, 1_000_000)?;
    }
    Ok(marking.look())
}
