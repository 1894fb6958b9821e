// Whether a table's estimates can be trusted.
ghost use Rattle.std.specs.Prelude.{Decides, MatchOption, MatchResult};
ghost use Rattle.heuristics.specs.Checks.{Accepted, ActionKept, FallsAtMost, FirstBreach, GoalKept, Kept, Refused};

use crate::table::{DEAD_END, check_length, number};
use planning::refusal::Refusal;
use planning::task::Task;

// The action that a goal's own entry is reported as.
// Kept: a rule of the project: the place of a breach is a state and an action, and this action is the goal's entry.
pub const GOAL_ENTRY: u16 = 65535;

// Whether the estimate falls by no more than the coins from here to there.
// Kept: no plainer: with an Option for each number there are four cases to tell apart, and here two tests.
fn falls_at_most(here: u32, coins: u32, there: u32) -> bool
    ensures { Decides result (FallsAtMost here coins there) }
{
    there == DEAD_END || here != DEAD_END && here as u64 <= coins as u64 + there as u64
}

// Whether a state's own entry keeps the rule.
fn keeps_entry<T: Task>(task: &T, numbers: &[u32], state: u32) -> bool
    ensures { Decides result (GoalKept (T.Task.model task.now) numbers.now state) }
{
    !task.is_goal(state) || number(numbers, state) == 0
}

// Whether an action of a state keeps the rule.
fn keeps_action<T: Task>(task: &T, numbers: &[u32], state: u32, action: u16) -> bool
    ensures { Decides result (ActionKept (T.Task.model task.now) numbers.now state action) }
{
    let Some(to) = task.transition(state, action) else {
        return true;
    };
    falls_at_most(number(numbers, state), to.coins, number(numbers, to.state))
}

// Kept: a rule of the project: two nested loops over the numbers of states and actions, left by a label with a place.
fn first_breach<T: Task>(task: &T, numbers: &[u32]) -> Option<(u32, u16)>
    ensures { MatchOption result (Kept (T.Task.model task.now) numbers.now) (λ place. FirstBreach (T.Task.model task.now) numbers.now place.0 place.1) }
{
    'search: {
        for state in 0..task.states() {
            if !keeps_entry(task, numbers, state) {
                break 'search Some((state, GOAL_ENTRY));
            }
            for action in 0..task.actions() {
                if !keeps_action(task, numbers, state, action) {
                    break 'search Some((state, action));
                }
            }
        }
        None
    }
}

// Accepts a table exactly when it has one number for each state and keeps the rule: then its estimates are admissible
// and consistent, under both cost algebras. Else it names the first place that breaks the rule.
pub fn check_table<T: Task>(task: &T, numbers: &[u32]) -> Result<(), Refusal>
    ensures { MatchResult result (λ _. Accepted (T.Task.model task.now) numbers.now) (Refused (T.Task.model task.now) numbers.now) }
{
    check_length(task, numbers)?;
    match first_breach(task, numbers) {
        None => Ok(()),
        Some((state, action)) => Err(Refusal::Inconsistent { state, action }),
    }
}
