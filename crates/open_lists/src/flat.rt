// The flat list: one slot for each state; the least entry is found by scanning all of them.
ghost use Rattle.std.specs.Prelude.{◌≡◌, ℕ, ◌<◌, ◌≤◌, true, false, length, Some, None};
ghost use Rattle.std.proofs.lemmas.Bool.{cond-false, le-ltb};
ghost use Rattle.planning.specs.Lists.{Emptied, Taken};
ghost use Rattle.open_lists.specs.Flats.{slot_label, flat_waiting, flat_next, better_entry, Scanned};
ghost use Rattle.heap_order.specs.Order.{room_of};

use crate::order::{precedes, served};
use planning::cost::CostAlgebra;
use planning::open_list::{Entry, OpenList};

// The front of one state's entry, and its tag if it waits. An Option of both would take half as much memory again.
#[derive(Clone, Copy)]
pub struct Slot<K> {
    front: K,
    tagged: Option<bool>,
}

impl<K: CostAlgebra> Slot<K> {
    // A slot in which nothing waits.
    pub fn blank() -> Slot<K>
        ensures { result ≡ record { front = K.CostAlgebra.algebra.zero; tagged = None } }
    {
        Slot {
            front: K::zero(),
            tagged: None,
        }
    }
}

#[derive(Drop)]
pub struct Flat<'a, K> {
    slots: &'a mut [Slot<K>],
}

fn wipe<K: CostAlgebra>(slots: &mut [Slot<K>])
    ensures { (p : ℕ) → slot_label slots.new p ≡ None }
{
    for slot in slots.iter_mut() {
        slot.tagged = None;
    }
}

// The earlier of the best entry so far and one more; the best so far where neither precedes the other.
fn better<K: CostAlgebra>(best: Option<Entry<K>>, entry: Entry<K>) -> Entry<K>
    ensures { result ≡ better_entry K.CostAlgebra.algebra best entry }
{
    match best {
        None => entry,
        Some(held) => if precedes(entry, held) { entry } else { held },
    }
}

fn scan<K: CostAlgebra>(slots: &[Slot<K>], states: u32) -> Option<Entry<K>>
    requires { states ≤ length slots.now }
    ensures { Scanned K.CostAlgebra.algebra (slot_label slots.now) states result }
{
    let mut best = None;
    for (state, slot) in slots[..states as usize].iter().enumerate() {
        if let Some(tagged) = slot.tagged {
            let entry = Entry {
                state: state as u32,
                front: slot.front,
                tagged,
            };
            best = Some(better(best, entry));
        }
    }
    best
}

fn take_least<K: CostAlgebra>(slots: &mut [Slot<K>], states: u32) -> Option<Entry<K>>
    requires { states ≤ length slots.old }
    ensures scanned { Scanned K.CostAlgebra.algebra (slot_label slots.old) states result }
    ensures taken { Taken (slot_label slots.old) (slot_label slots.new) result }
{
    let entry = scan(slots, states)?;
    slots[entry.state as usize].tagged = None;
    Some(entry)
}

impl<'a, K: CostAlgebra> Flat<'a, K> {
    // An empty list with a slot for each state below the length of the slice. What the slots held is lost, and what
    // they hold when the list is done with is not promised.
    pub fn new(slots: &'a mut [Slot<K>]) -> Flat<'a, K>
        ensures emptied { Emptied (flat_waiting result.slots.now) }
        ensures room { room_of (length result.slots.now) ≡ room_of (length slots.old) }
    {
        wipe(slots);
        Flat { slots }
    }
}

impl<'a, K: CostAlgebra> OpenList for Flat<'a, K> {
    type Cost = K;

    ghost waiting = { λ l. flat_waiting l.slots.now };

    ghost room = { λ l. room_of (length l.slots.now) };

    ghost ordered = { λ _. Unit {0} };

    ghost next = { λ l. flat_next K.CostAlgebra.algebra l.slots.now };

    ghost within = { λ l _ p h. cond-false _ _ None (le-ltb p (room_of (length l.slots.now)) h) };

    fn capacity(&self) -> u32 {
        served(self.slots.len())
    }

    fn clear(&mut self) {
        wipe(self.slots);
    }

    fn put(&mut self, state: u32, front: K, tagged: bool) -> bool {
        if state >= self.capacity() {
            return false;
        }
        self.slots[state as usize] = Slot {
            front,
            tagged: Some(tagged),
        };
        true
    }

    fn least(&self) -> Option<Entry<K>> {
        scan(self.slots, self.capacity())
    }

    fn take(&mut self) -> Option<Entry<K>> {
        let states = self.capacity();
        take_least(self.slots, states)
    }
}
