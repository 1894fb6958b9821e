// STRIPS tasks: what an action does in a state.
ghost use Rattle.std.specs.Prelude.{◌≡◌, ◌^◌, ◌<◌, if◌then◌else◌, Some, None};
ghost use Rattle.sheets.specs.StripsTasks.{applicable, successor};

use crate::head::StripsHead;
use crate::strips::{Facts, StripsAction, holds_only};
use crate::task::TaskOf;
use planning::task::Transition;

pub type StripsTask<'a> = TaskOf<'a, Facts>;

impl StripsHead {
    // An action in a state, if it names only facts that are there and its preconditions hold.
    // Kept: no plainer: the two kinds share no more than the cap of a price, which is one call.
    pub(crate) fn perform(
        &self,
        state: u32,
        action: &StripsAction,
        price: u32,
    ) -> Option<Transition>
        requires { state < 2 ^ self.now.facts }
        ensures { result ≡ (if applicable self.now.facts state action.now then Some (successor self.now.facts state action.now price) else None) }
    {
        let StripsAction {
            preconditions,
            adds,
            deletes,
        } = *action;
        let sets = [preconditions, adds, deletes];
        if !sets.iter().all(|set| holds_only(*set, self.facts)) {
            return None;
        }
        if state & preconditions != preconditions {
            return None;
        }
        Some(Transition {
            state: state & !deletes | adds,
            coins: price.min(1_000_000),
        })
    }
}
