// Finite-domain tasks: the values of the variables in a state, and what an action does.
ghost use Rattle.std.specs.Prelude.{◌≡◌, ◌<◌, ◌≤◌, length, if◌then◌else◌, Some, None, nat_lt};
ghost use Rattle.std.specs.List.{AllByRecursion};
ghost use Rattle.sheet_layout.specs.FiniteDomain.{ValidCount, product};
ghost use Rattle.sheets.specs.FiniteDomainReading.{padded};
ghost use Rattle.sheets.specs.FiniteDomainTasks.{encode as encodes, decode as decodes, InRange, holds, changed as changes, names, applicable, successor, counts_of, Numbering, StateWith};

use crate::bytes::byte_at;
use crate::finite_domain::{ANY, FiniteDomainAction, Variables, check_values, is_value};
use crate::head::FiniteDomainHead;
use crate::task::TaskOf;
use planning::task::Transition;

pub type FiniteDomainTask<'a> = TaskOf<'a, Variables>;

impl FiniteDomainHead {
    // The values of the variables in a state, and 0 behind them.
    fn decode(&self, state: u32) -> [u8; 16]
        ensures { result ≡ padded (decodes (counts_of self.now) state) }
    {
        let mut values = [0; 16];
        let mut rest = state;
        // Kept: tried, and the proof did not close: after a loop over values.iter_mut().zip(..) nothing is known of the
        // values that it wrote.
        for (i, count) in self.counts().iter().enumerate() {
            let count = u32::from(*count);
            values[i] = (rest % count) as u8;
            rest /= count;
        }
        values
    }

    // The state in which the variables have these values.
    fn encode(&self, values: &[u8]) -> u32
        requires { InRange (counts_of self.now) values.now }
        ensures { result ≡ encodes (counts_of self.now) values.now }
    {
        let mut state = 0;
        for (count, value) in self.counts().iter().rev().zip(values.iter().rev()) {
            state = u32::from(*value) + u32::from(*count) * state;
        }
        state
    }

    // The values of the variables in a state, and 0 behind them; none for an absent state.
    pub fn values_in(&self, state: u32) -> Option<[u8; 16]>
        ensures value { result ≡ (if nat_lt state (product (counts_of self.now)) then Some (padded (decodes (counts_of self.now) state)) else None) }
        ensures numbering { Numbering (counts_of self.now) }
    {
        if state >= self.states {
            return None;
        }
        Some(self.decode(state))
    }

    // The state in which the variables have these values; none where they are not one for each variable.
    pub fn state_with(&self, values: &[u8]) -> Option<u32>
        ensures value { StateWith (counts_of self.now) values.now result }
        ensures numbering { Numbering (counts_of self.now) }
    {
        let counts = self.counts();
        if values.len() != counts.len() {
            return None;
        }
        check_values(counts, values, false, 0).ok()?;
        Some(self.encode(values))
    }

    // An action in a state, if it names only what is there and its preconditions hold.
    pub(crate) fn perform(
        &self,
        state: u32,
        action: &FiniteDomainAction,
        price: u32,
    ) -> Option<Transition>
        ensures { result ≡ (if applicable (counts_of self.now) (decodes (counts_of self.now) state) action.now then Some (successor (counts_of self.now) (decodes (counts_of self.now) state) action.now price) else None) }
    {
        let counts = self.counts();
        if !names_only(&action.preconditions, counts) || !names_only(&action.effects, counts) {
            return None;
        }
        let values = self.decode(state);
        if !satisfied(&action.preconditions, &values[..counts.len()]) {
            return None;
        }
        let after = changed(&action.effects, values);
        Some(Transition {
            state: self.encode(&after[..counts.len()]),
            coins: price.min(1_000_000),
        })
    }

    // Whether a state is a goal state.
    pub(crate) fn meets_goal(&self, state: u32) -> bool
        ensures { result ≡ holds self.now.goal (decodes (counts_of self.now) state) }
    {
        let values = self.decode(state);
        satisfied(&self.goal, &values[..self.counts().len()])
    }
}

// Whether every value that is named is the state's: the test of preconditions, and of a goal.
fn satisfied(named: &[u8; 16], values: &[u8]) -> bool
    ensures { result ≡ holds named.now values.now }
{
    named
        .iter()
        .zip(values)
        .all(|(named, value)| *named == ANY || named == value)
}

// Whether only variables that are there are named, each with a value that is there.
fn names_only(named: &[u8; 16], counts: &[u8]) -> bool
    ensures { result ≡ names counts.now named.now }
{
    named
        .iter()
        .enumerate()
        .all(|(i, value)| is_value(*value, byte_at(counts, i), true))
}

// The values after an action's effects.
fn changed(effects: &[u8; 16], values: [u8; 16]) -> [u8; 16]
    ensures { result ≡ changes effects.now values }
{
    std::array::from_fn(|i| {
        if effects[i] == ANY {
            values[i]
        } else {
            effects[i]
        }
    })
}
