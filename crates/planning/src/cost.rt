// Costs of paths: what an action is charged, how costs add up and compare.
ghost use Rattle.std.specs.Prelude.{◌≡◌};
ghost use Rattle.planning.specs.Costs.{Algebra, CostLaws, Strict};

// Implemented by the type of the costs themselves. The sum need not be commutative.
pub trait CostAlgebra: Copy {
    // The exact operations on unbounded numbers, and the sum as it is computed.
    ghost algebra: { Algebra Self };

    fn zero() -> Self
        ensures { result ≡ algebra.zero };

    fn charge(coins: u32) -> Self
        ensures { result ≡ algebra.charge coins };

    fn plus(self, other: Self) -> Self
        ensures { result ≡ algebra.computed self other };

    fn before(self, other: Self) -> bool
        ensures { result ≡ algebra.before self other };

    ghost laws: { CostLaws algebra };

    ghost strict: { Strict algebra };
}

// What a search knows of a state: the cost of the best path found, and whether that path is tagged.
// Kept: a rule of the project: the record is generic, of a cost, a tag and a flag that says whether the state is known.
#[derive(Clone, Copy)]
pub struct Record<K> {
    pub cost: K,
    pub tagged: bool,
    pub known: bool,
}

impl<K: CostAlgebra> Record<K> {
    ghost use Rattle.planning.specs.Search.{blank};

    // The record of a state of which nothing is known.
    pub fn unknown() -> Record<K>
        ensures { result ≡ blank K.CostAlgebra.algebra }
    {
        Record {
            cost: K::zero(),
            tagged: false,
            known: false,
        }
    }
}
