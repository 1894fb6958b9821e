// The central theorem, for every cost algebra.
ghost use Rattle.planning.specs.Theorem.{Theorem};

use crate::cost::CostAlgebra;

// Does nothing: its promise is what the status and the turns of a marking mean after every history.
pub fn theorem_stands<K: CostAlgebra>()
    ensures { Theorem K.CostAlgebra.algebra }
{}
