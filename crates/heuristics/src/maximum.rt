// The later of two estimates, and a dead end if either is one.
ghost use Rattle.std.specs.Prelude.{◌≡◌};
ghost use Rattle.heuristics.specs.Layers.{maximum};
ghost use Rattle.heuristics.specs.Promises.{MaximumAdmissible, MaximumConsistent};

use planning::cost::CostAlgebra;
use planning::heuristic::Heuristic;

#[derive(Clone, Copy)]
pub struct Maximum<A, B> {
    first: A,
    second: B,
}

impl<A: Heuristic, B: Heuristic<Cost = A::Cost>> Maximum<A, B> {
    pub fn new(first: A, second: B) -> Self
        ensures held { (result.first ≡ first) × (result.second ≡ second) }
        ensures admissible { MaximumAdmissible A.Cost.CostAlgebra.algebra (A.Heuristic.estimated result.first) (B.Heuristic.estimated result.second) }
        ensures consistent { MaximumConsistent A.Cost.CostAlgebra.algebra (A.Heuristic.estimated result.first) (B.Heuristic.estimated result.second) }
    {
        Maximum { first, second }
    }
}

impl<A: Heuristic, B: Heuristic<Cost = A::Cost>> Heuristic for Maximum<A, B> {
    type Cost = A::Cost;

    ghost estimated = { λ m. maximum A.Cost.CostAlgebra.algebra (A.Heuristic.estimated m.first) (B.Heuristic.estimated m.second) };

    fn estimate(&self, state: u32) -> Option<A::Cost> {
        let x = self.first.estimate(state)?;
        let y = self.second.estimate(state)?;
        if x.before(y) { Some(y) } else { Some(x) }
    }

    fn bounded(&self) {
        self.first.bounded();
        self.second.bounded();
    }
}
