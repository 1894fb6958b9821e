// The answer to one question about a task: coins as costs, no heuristic, a heap as open list.
#![tactic(auto)]

ghost use Rattle.std.specs.Prelude.{◌≡◌, length, OnErr};
ghost use Rattle.planning.specs.Checks.{first_failing};
ghost use Rattle.planning.specs.Outcomes.{Answers};
ghost use Rattle.heap_order.specs.Order.{room_of};
ghost use Rattle.marker.specs.Refusals.{start_checks};
ghost use Rattle.answers.specs.Verdicts.{Verdict};

use costs::coins::Coins;
use heuristics::blind::Blind;
use marker::mark::mark;
use open_lists::heap::{Heap, Place};
use planning::cost::Record;
use planning::refusal::Refusal;
use planning::status::Status;
use planning::task::Task;

// More turns than any task has states, so that a search always comes to a verdict.
const LIMIT: u32 = 1_000_000;

// Whether a cheapest solution from a state begins with an action: always a verdict, or a refusal.
pub fn answer<T: Task>(
    task: &T,
    places: &mut [Place<Coins>],
    table: &mut [Record<Coins>],
    state: u32,
    action: u16,
) -> Result<Status, Refusal>
    ensures answers { Answers (first_failing (start_checks (T.Task.model task.now) (length table.old) (room_of (length places.old)) state action 1000000)) (Verdict (T.Task.model task.now) state action) result }
    ensures refused { OnErr result (table.new ≡ table.old) }
{
    // A task has fewer states than the limit.
    let _ = task.states();
    let blind: Blind<Coins> = Blind::new();
    let mut heap = Heap::new(places);
    let (status, _) = mark(task, &blind, &mut heap, table, state, action, LIMIT)?;
    Ok(status)
}
