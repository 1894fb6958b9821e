// One lent number for each state.
ghost use Rattle.std.specs.Prelude.{◌≡◌, MatchResult, slice_index};
ghost use Rattle.heuristics.specs.Tables.{OneEach, WrongLength, tabled};

use costs::counted::Counted;
use planning::cost::CostAlgebra;
use planning::heuristic::Heuristic;
use planning::refusal::Refusal;
use planning::task::Task;
use std::marker::PhantomData;

// The number that marks a dead end.
// Kept: a rule of the project: a lent table holds numbers of 32 bits, and the largest stands for a dead end.
pub const DEAD_END: u32 = u32::MAX;

#[derive(Clone, Copy)]
pub struct Table<'a, K> {
    numbers: &'a [u32],
    cost: PhantomData<K>,
}

// The number of a state, and 0 outside the table.
pub(crate) fn number(numbers: &[u32], state: u32) -> u32
    ensures { result ≡ slice_index numbers.now state }
{
    numbers.get(state as usize).copied().unwrap_or(0)
}

// Whether a table has one number for each state.
pub(crate) fn check_length<T: Task>(task: &T, numbers: &[u32]) -> Result<(), Refusal>
    ensures { MatchResult result (λ _. OneEach (T.Task.model task.now) numbers.now) (WrongLength (T.Task.model task.now) numbers.now) }
{
    let states = task.states();
    if numbers.len() != states as usize {
        return Err(Refusal::TableLength { states });
    }
    Ok(())
}

impl<'a, K: Counted> Table<'a, K> {
    pub fn new<T: Task>(task: &T, numbers: &'a [u32]) -> Result<Self, Refusal>
        ensures { MatchResult result (λ h. OneEach (T.Task.model task.now) numbers.now × (h.numbers.now ≡ numbers.now)) (WrongLength (T.Task.model task.now) numbers.now) }
    {
        check_length(task, numbers)?;
        Ok(Table {
            numbers,
            cost: PhantomData,
        })
    }
}

impl<'a, K: Counted> Heuristic for Table<'a, K> {
    type Cost = K;

    ghost estimated = { λ t. tabled K.Counted.count t.numbers.now };

    fn estimate(&self, state: u32) -> Option<K> {
        let number = number(self.numbers, state);
        if number == DEAD_END {
            None
        } else {
            Some(K::counted(number))
        }
    }

    fn bounded(&self) {
        K::lawful();
    }
}
