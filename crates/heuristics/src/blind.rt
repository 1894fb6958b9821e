// No knowledge: every state is estimated at zero.
ghost use Rattle.heuristics.specs.Layers.{blind};
ghost use Rattle.heuristics.specs.Promises.{BlindAdmissible, BlindConsistent};

use planning::cost::CostAlgebra;
use planning::heuristic::Heuristic;
use std::marker::PhantomData;

#[derive(Clone, Copy)]
pub struct Blind<K> {
    cost: PhantomData<K>,
}

impl<K: CostAlgebra> Blind<K> {
    pub fn new() -> Self
        ensures admissible { BlindAdmissible K.CostAlgebra.algebra }
        ensures consistent { BlindConsistent K.CostAlgebra.algebra }
    {
        Blind { cost: PhantomData }
    }
}

impl<K: CostAlgebra> Heuristic for Blind<K> {
    type Cost = K;

    ghost estimated = { λ _. blind K.CostAlgebra.algebra };

    fn estimate(&self, _state: u32) -> Option<K> {
        Some(K::zero())
    }

    fn bounded(&self) {}
}
