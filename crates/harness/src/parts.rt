// The choice of list, heuristic and cost algebra, each in its own memory.
// Kept: the C interface: each choice crosses as a number, which is looked at once, here.
use crate::request::Request;
use costs::coins::Coins;
use costs::coins_then_actions::CoinsThenActions;
use costs::counted::Counted;
use heuristics::blind::Blind;
use heuristics::maximum::Maximum;
use heuristics::strided::Strided;
use heuristics::table::Table;
use open_lists::flat::{Flat, Slot};
use open_lists::heap::{Heap, Place};
use planning::cost::{CostAlgebra, Record};
use planning::heuristic::Heuristic;
use planning::task::Task;
use std::alloc::AllocError;

impl Request<'_> {
    fn with_list<T: Task, K: CostAlgebra + Clone, H: Heuristic<Cost = K>>(
        &mut self,
        task: &T,
        heuristic: &H,
    ) -> Result<(), AllocError> {
        let heap = self.heap;
        let room = self.setup.room as usize;
        let mut table = vec![in heap; Record::<K>::unknown(); self.setup.records as usize]?;
        if self.setup.list == 0 {
            let mut places = vec![in heap; Place::<K>::blank(); room]?;
            self.play(task, heuristic, &mut Heap::new(&mut places), &mut table);
        } else {
            let mut slots = vec![in heap; Slot::<K>::blank(); room]?;
            self.play(task, heuristic, &mut Flat::new(&mut slots), &mut table);
        }
        Ok(())
    }

    fn with_heuristic<T: Task, K: Counted + Clone>(&mut self, task: &T) -> Result<(), AllocError> {
        let blind: Blind<K> = Blind::new();
        if self.setup.heuristic == 0 {
            return self.with_list(task, &blind);
        }
        let Ok(table) = Table::<K>::new(task, self.first) else {
            return Ok(());
        };
        if self.setup.heuristic == 1 {
            return self.with_list(task, &table);
        }
        let stride = self.setup.stride;
        if self.setup.heuristic == 2 {
            return self.with_list(task, &Strided::new(table, stride));
        }
        let Ok(other) = Table::<K>::new(task, self.second) else {
            return Ok(());
        };
        self.with_list(task, &Maximum::new(table, Strided::new(other, stride)))
    }

    pub(crate) fn with_cost<T: Task>(&mut self, task: &T) -> Result<(), AllocError> {
        if self.setup.cost == 0 {
            self.with_heuristic::<T, Coins>(task)
        } else {
            self.with_heuristic::<T, CoinsThenActions>(task)
        }
    }
}
