// Estimates of the cost that is still to come.
ghost use Rattle.std.specs.Prelude.{◌≡◌, ℕ, Option};
ghost use Rattle.planning.specs.Estimates.{Bounded};

use crate::cost::CostAlgebra;

// `None` marks a dead end, from which no goal can be reached.
pub trait Heuristic {
    type Cost: CostAlgebra;

    ghost estimated: { Self → ℕ → Option Self.Cost };

    fn estimate(&self, state: u32) -> Option<Self::Cost>
        ensures { result ≡ estimated self.now state };

    // Does nothing: its promise is the law that every estimate is of size at most 2 ^ 40.
    fn bounded(&self)
        ensures { Bounded Self.Cost.CostAlgebra.algebra (estimated self.now) };
}
