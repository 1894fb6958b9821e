// The checks of the calls, in ascending number.
ghost use Rattle.std.specs.Prelude.{◌≡◌, ◌≤◌, ◌&&◌, false, nat_le, Some, MatchResult};
ghost use Rattle.planning.specs.declared.refusal.Refusal.TheVariants.{Short};
ghost use Rattle.planning.specs.declared.status.Status.TheVariants.{Open};
ghost use Rattle.planning.specs.Checks.{first_failing};
ghost use Rattle.planning.specs.Outcomes.{Answers};
ghost use Rattle.planning.specs.Task.{TaskLaws};
ghost use Rattle.marker.specs.Refusals.{start_checks, advance_checks, Admitted};
ghost use Rattle.marker.specs.Calls.{numbers_of};

use crate::marking::Marking;
use planning::open_list::OpenList;
use planning::refusal::Refusal;
use planning::status::Status;
use planning::task::{Task, Transition};

// Whether the table has a record for each state, and the list room for each.
fn check_room<L: OpenList>(states: u32, list: &L, records: usize) -> Result<(), Refusal>
    ensures { MatchResult result (λ _. (states ≤ records) × (states ≤ L.OpenList.room list.now)) (λ refusal. ((nat_le states records && nat_le states (L.OpenList.room list.now)) ≡ false) × (refusal ≡ Short states)) }
{
    let needed = states as usize;
    if records < needed || list.capacity() < states {
        return Err(Refusal::Short { needed });
    }
    Ok(())
}

// Kept: a rule of the project: what a call asks about and the caller's things are handed on one by one, as the calls have them.
pub(crate) fn check_start<T: Task, L: OpenList>(
    task: &T,
    list: &L,
    records: usize,
    state: u32,
    action: u16,
    limit: u32,
) -> Result<Transition, Refusal>
    ensures lawful { TaskLaws (T.Task.model task.now) }
    ensures answers { Answers (first_failing (start_checks (T.Task.model task.now) records (L.OpenList.room list.now) state action limit)) (Admitted (T.Task.model task.now) records (L.OpenList.room list.now) state action limit) result }
{
    let states = task.states();
    check_room(states, list, records)?;
    if !(1..=100_000_000).contains(&limit) {
        return Err(Refusal::Range);
    }
    if state >= states {
        return Err(Refusal::NoState { state });
    }
    if action >= task.actions() {
        return Err(Refusal::NoAction { action });
    }
    let to = task
        .transition(state, action)
        .ok_or(Refusal::Inapplicable { action })?;
    if task.is_goal(state) {
        return Err(Refusal::AtGoal { state });
    }
    Ok(to)
}

pub(crate) fn check_advance<T: Task, L: OpenList>(
    marking: Marking,
    task: &T,
    list: &L,
    records: usize,
    budget: u32,
) -> Result<(), Refusal>
    ensures lawful { TaskLaws (T.Task.model task.now) }
    ensures answers { Answers (first_failing (advance_checks (T.Task.model task.now) records (L.OpenList.room list.now) budget (numbers_of marking))) (λ _. ((T.Task.model task.now).states ≤ records) × ((T.Task.model task.now).states ≤ L.OpenList.room list.now) × (marking.status ≡ Open)) result }
{
    let states = task.states();
    check_room(states, list, records)?;
    if budget > 1_000_000 {
        return Err(Refusal::Range);
    }
    let Status::Open = marking.status else {
        return Err(Refusal::NotOpen {
            turns: marking.turns,
        });
    };
    Ok(())
}
