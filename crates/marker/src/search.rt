// The steps of a search, on the table and the open list of the caller.
ghost use Rattle.std.specs.Prelude.{◌≡◌, ◌+◌, ◌<◌, ◌≤◌, length, MatchResult, OnErr};
ghost use Rattle.planning.specs.declared.status.Status.TheVariants.{Open};
ghost use Rattle.planning.specs.Search.{cleared, takes, offer as forward, Offered, Swept, Onward, Turn, Foreign, Advanced, Stopped, verdict_of, label};
ghost use Rattle.planning.specs.Task.{TaskLaws};
ghost use Rattle.planning.specs.Labelled.{labelled};
ghost use Rattle.marker.specs.Calls.{Meets};

use crate::marking::Marking;
use planning::cost::{CostAlgebra, Record};
use planning::heuristic::Heuristic;
use planning::label::Label;
use planning::open_list::OpenList;
use planning::refusal::Refusal;
use planning::status::Status;
use planning::task::{Task, Transition};

// Makes the first records blank. `fill` would ask for a clone that cannot fail, of which a cost algebra says nothing.
#[tactic(auto, using(planning::proofs::Steps::cleared_more))]
pub(crate) fn clear<K: CostAlgebra>(table: &mut [Record<K>], count: usize)
    requires { count ≤ length table.old }
    ensures { table.new ≡ cleared K.CostAlgebra.algebra count table.old }
{
    for record in &mut table[..count] {
        *record = Record::unknown();
    }
}

// The way that goes on to where an action leads.
fn further<K: CostAlgebra>(way: Label<K>, to: Transition) -> Label<K>
    ensures { labelled result ≡ forward K.CostAlgebra.algebra K.CostAlgebra.algebra.computed (labelled way) to }
{
    Label {
        cost: way.cost.plus(K::charge(to.coins)),
        tagged: way.tagged,
    }
}

// The label of a state of which something is known.
fn known_label<K: CostAlgebra>(found: Record<K>) -> Label<K>
    ensures { labelled result ≡ label found }
{
    Label {
        cost: found.cost,
        tagged: found.tagged,
    }
}

// Whether a way is better than what is known of its state.
fn is_taken<K: CostAlgebra>(found: Record<K>, way: Label<K>) -> bool
    ensures { result ≡ takes K.CostAlgebra.algebra found (labelled way) }
{
    !found.known || way.precedes(known_label(found))
}

fn verdict(tagged: bool) -> Status
    ensures { result ≡ verdict_of tagged }
{
    if tagged { Status::Best } else { Status::Other }
}

impl Marking {
    ghost use Rattle.marker.specs.Calls.{Counts};

    // One turn more, with a new status.
    fn count(&mut self, status: Status)
        requires room { self.old.turns < self.old.limit }
        requires unspent { status ≡ Open → self.old.turns + 1 < self.old.limit }
        ensures { Counts self.old status self.new }
    {
        self.turns += 1;
        self.status = status;
    }
}

// A search over the caller's things: the table has a record for each state, and the list has room for each.
// The four are handed in at lifetimes of their own.
#[derive(Drop)]
pub(crate) struct Search<'t, 'h, 'l, 'r, T: Task, H: Heuristic, L: OpenList<Cost = H::Cost>> {
    pub(crate) task: &'t T,
    pub(crate) heuristic: &'h H,
    pub(crate) list: &'l mut L,
    pub(crate) table: &'r mut [Record<H::Cost>],
    ghost records: { (T.Task.model task.now).states ≤ length table.now },
    ghost room: { (T.Task.model task.now).states ≤ L.OpenList.room list.now },
}

// Kept: no plainer: that the list is in order is no fact of the type, since a caller may lend a list that is not.
impl<T: Task, H: Heuristic, L: OpenList<Cost = H::Cost>> Search<'_, '_, '_, '_, T, H, L> {
    ghost use Rattle.marker.specs.Searches.{memory_in, configuration_in, InOrder, SameThings};

    // Offers a way to a state.
    pub(crate) fn offer(&mut self, state: u32, way: Label<H::Cost>)
        requires { state < (T.Task.model self.old.task.now).states }
        ensures offered { InOrder self.old → Offered H.Cost.CostAlgebra.algebra H.Cost.CostAlgebra.algebra.computed (H.Heuristic.estimated self.old.heuristic.now) state (labelled way) (memory_in self.old) (memory_in self.new) }
        ensures ordered { InOrder self.old → InOrder self.new }
        ensures same { SameThings self.old self.new }
    {
        let at = state as usize;
        let found = self.table[at];
        if !is_taken(found, way) {
            return;
        }
        self.table[at] = Record {
            cost: way.cost,
            tagged: way.tagged,
            known: true,
        };
        if let Some(estimate) = self.heuristic.estimate(state) {
            self.list.put(state, way.cost.plus(estimate), way.tagged);
        }
    }

    // Offers by every action that is applicable in a state, in rising order.
    fn sweep(&mut self, state: u32, way: Label<H::Cost>)
        requires { TaskLaws (T.Task.model self.old.task.now) }
        ensures swept { InOrder self.old → Swept (T.Task.model self.old.task.now) H.Cost.CostAlgebra.algebra H.Cost.CostAlgebra.algebra.computed (H.Heuristic.estimated self.old.heuristic.now) state (labelled way) (memory_in self.old) (T.Task.model self.old.task.now).actions (memory_in self.new) }
        ensures ordered { InOrder self.old → InOrder self.new }
        ensures same { SameThings self.old self.new }
    {
        for action in 0..self.task.actions() {
            if let Some(to) = self.task.transition(state, action) {
                self.offer(to.state, further(way, to));
            }
        }
    }

    // The status of a search that has no verdict on the marked action.
    pub(crate) fn onward(&self, turns: u32, limit: u32) -> Status
        ensures onward { InOrder self.now → Onward (L.OpenList.waiting self.now.list.now) turns limit result }
        ensures unspent { result ≡ Open → turns < limit }
    {
        match self.list.least() {
            None => Status::Stuck,
            Some(_) if limit <= turns => Status::Spent,
            Some(_) => Status::Open,
        }
    }

    // One turn: takes the least entry, and ends at a goal or offers onward. Refuses with the place of a
    // least entry that is none of this search.
    fn turn(&mut self, marking: &mut Marking) -> Result<(), Refusal>
        requires { marking.old.status ≡ Open }
        ensures turned { MatchResult result (λ _. InOrder self.old → Turn (T.Task.model self.old.task.now) H.Cost.CostAlgebra.algebra H.Cost.CostAlgebra.algebra.computed (H.Heuristic.estimated self.old.heuristic.now) (configuration_in marking.old self.old) (configuration_in marking.new self.new)) (Meets (λ place. InOrder self.old → Foreign (T.Task.model self.old.task.now) H.Cost.CostAlgebra.algebra (memory_in self.old) place)) }
        ensures refused { OnErr result ((marking.new ≡ marking.old) × (self.new.table.now ≡ self.old.table.now) × (self.new.list.now ≡ self.old.list.now)) }
        ensures ordered { InOrder self.old → InOrder self.new }
        ensures same { SameThings self.old self.new }
    {
        let states = self.task.states();
        let Some(entry) = self.list.least() else {
            return Err(Refusal::Foreign { state: states });
        };
        let state = entry.state;
        if state >= states {
            return Err(Refusal::Foreign { state });
        }
        let found = self.table[state as usize];
        if !found.known {
            return Err(Refusal::Foreign { state });
        }
        let _ = self.list.take();
        if self.task.is_goal(state) {
            marking.count(verdict(found.tagged));
            return Ok(());
        }
        self.sweep(state, known_label(found));
        let status = self.onward(marking.turns + 1, marking.limit);
        marking.count(status);
        Ok(())
    }

    // Turns in a row, as many as the budget, or fewer where the marking is then not open or a turn refuses,
    // before which the others stand.
    pub(crate) fn run(&mut self, marking: &mut Marking, budget: u32) -> Result<(), Refusal>
        requires { marking.old.status ≡ Open }
        ensures ran { MatchResult result (λ _. InOrder self.old → Advanced (T.Task.model self.old.task.now) H.Cost.CostAlgebra.algebra H.Cost.CostAlgebra.algebra.computed (H.Heuristic.estimated self.old.heuristic.now) budget (configuration_in marking.old self.old) (configuration_in marking.new self.new)) (Meets (λ place. InOrder self.old → Stopped (T.Task.model self.old.task.now) H.Cost.CostAlgebra.algebra H.Cost.CostAlgebra.algebra.computed (H.Heuristic.estimated self.old.heuristic.now) budget place (configuration_in marking.old self.old) (configuration_in marking.new self.new))) }
        ensures ordered { InOrder self.old → InOrder self.new }
        ensures same { SameThings self.old self.new }
    {
        for _ in 0..budget {
            self.turn(marking)?;
            if marking.status != Status::Open {
                break;
            }
        }
        Ok(())
    }
}
