// The label of a way to a state or of an entry that waits: a cost and a tag, in one order.
ghost use Rattle.std.specs.Prelude.{◌≡◌};

use crate::cost::CostAlgebra;

// Kept: no plainer: every label has a tag, yes or no, and a cost whatever the tag is.
#[derive(Clone, Copy)]
pub struct Label<K> {
    pub cost: K,
    pub tagged: bool,
}

impl<K: CostAlgebra> Label<K> {
    ghost use Rattle.planning.specs.Labels.{earlier};
    ghost use Rattle.planning.specs.Labelled.{labelled};

    // Whether the cost is strictly lower, or it is the same and only this one is tagged.
    pub fn precedes(self, other: Label<K>) -> bool
        ensures { result ≡ earlier K.CostAlgebra.algebra (labelled self) (labelled other) }
    {
        self.cost.before(other.cost)
            || !other.cost.before(self.cost) && self.tagged && !other.tagged
    }
}
