// Asks the heuristic below only at every so many states. Estimates stay admissible, but consistency may be lost.
ghost use Rattle.std.specs.Prelude.{◌≡◌};
ghost use Rattle.heuristics.specs.Layers.{strided};
ghost use Rattle.heuristics.specs.Promises.{StridedAdmissible};

use planning::cost::CostAlgebra;
use planning::heuristic::Heuristic;

#[derive(Clone, Copy)]
pub struct Strided<H> {
    below: H,
    stride: u32,
}

impl<H: Heuristic> Strided<H> {
    pub fn new(below: H, stride: u32) -> Self
        ensures held { (result.below ≡ below) × (result.stride ≡ stride) }
        ensures admissible { StridedAdmissible H.Cost.CostAlgebra.algebra result.stride (H.Heuristic.estimated result.below) }
    {
        Strided { below, stride }
    }
}

impl<H: Heuristic> Heuristic for Strided<H> {
    type Cost = H::Cost;

    ghost estimated = { λ s. strided H.Cost.CostAlgebra.algebra s.stride (H.Heuristic.estimated s.below) };

    fn estimate(&self, state: u32) -> Option<H::Cost> {
        if state % self.stride.max(1) == 0 {
            self.below.estimate(state)
        } else {
            Some(<H::Cost>::zero())
        }
    }

    fn bounded(&self) {
        self.below.bounded();
    }
}
