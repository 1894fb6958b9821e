// Which of two entries comes first, and how many states a slice can serve.
ghost use Rattle.std.specs.Prelude.{◌≡◌};
ghost use Rattle.heap_order.specs.Order.{room_of};
ghost use Rattle.planning.specs.Labels.{earlier};
ghost use Rattle.planning.specs.Labelled.{labelled};
ghost use Rattle.planning.specs.Lists.{label_of};

use planning::cost::CostAlgebra;
use planning::label::Label;
use planning::open_list::Entry;

// An entry is ordered by its front and its tag.
fn label<K: CostAlgebra>(entry: Entry<K>) -> Label<K>
    ensures { labelled result ≡ label_of entry }
{
    Label {
        cost: entry.front,
        tagged: entry.tagged,
    }
}

pub fn precedes<K: CostAlgebra>(x: Entry<K>, y: Entry<K>) -> bool
    ensures { result ≡ earlier K.CostAlgebra.algebra (label_of x) (label_of y) }
{
    label(x).precedes(label(y))
}

// States are numbered in 32 bits, so a longer slice serves no more states than they can count.
pub fn served(length: usize) -> u32
    ensures { result ≡ room_of length }
{
    u32::try_from(length).unwrap_or(u32::MAX)
}
