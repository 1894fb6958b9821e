// The states that wait to be expanded, at most one entry for each.
ghost use Rattle.std.specs.Prelude.{◌≡◌, ℕ, ◌<◌, ◌≤◌, true, false, None, Option};
ghost use Rattle.planning.specs.Labels.{Label};
ghost use Rattle.planning.specs.Lists.{Emptied, Put, Least, Taken};

use crate::cost::CostAlgebra;

// Kept: no plainer: every entry has a tag, yes or no, and a front whatever the tag is.
#[derive(Clone, Copy)]
pub struct Entry<K> {
    pub front: K,
    pub state: u32,
    pub tagged: bool,
}

pub trait OpenList {
    type Cost: CostAlgebra;

    // The waiting entry of each state.
    ghost waiting: { Self → ℕ → Option (Label Self.Cost) };

    // Entries are kept for the states below this number.
    ghost room: { Self → ℕ };

    // The invariant: `clear` makes any list so, and every call keeps it.
    ghost ordered: { Self → Type 0 };

    // Whose entry `least` answers and `take` removes.
    ghost next: { Self → Option ℕ };

    ghost within: { (l : Self) → ordered l → (p : ℕ) → room l ≤ p → waiting l p ≡ None };

    fn capacity(&self) -> u32
        ensures { result ≡ room self.now };

    fn clear(&mut self)
        ensures emptied { Emptied (waiting self.new) }
        ensures ordered { ordered self.new }
        ensures room { room self.new ≡ room self.old };

    fn put(&mut self, state: u32, front: Self::Cost, tagged: bool) -> bool
        ensures refused { ordered self.old → result ≡ false → (room self.old ≤ state) × (self.new ≡ self.old) }
        ensures put { ordered self.old → result ≡ true → (state < room self.old) × Put (waiting self.old) (waiting self.new) state front tagged }
        ensures ordered { ordered self.old → ordered self.new }
        ensures room { room self.new ≡ room self.old };

    fn least(&self) -> Option<Entry<Self::Cost>>
        ensures { ordered self.now → Least Self.Cost.CostAlgebra.algebra (waiting self.now) (next self.now) result };

    fn take(&mut self) -> Option<Entry<Self::Cost>>
        ensures least { ordered self.old → Least Self.Cost.CostAlgebra.algebra (waiting self.old) (next self.old) result }
        ensures taken { ordered self.old → Taken (waiting self.old) (waiting self.new) result }
        ensures ordered { ordered self.old → ordered self.new }
        ensures room { room self.new ≡ room self.old };
}
