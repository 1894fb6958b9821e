// A task over lent tables: a sheet's, or any others.
ghost use Rattle.std.specs.Prelude.{◌≡◌};
ghost use Rattle.sheets.specs.Kinds.{task_over, Described};

use crate::kind::SheetKind;
use planning::task::{Task, Transition};
use std::marker::PhantomData;

// H and A are the head and the actions of kind K: a struct that holds an associated type has no Copy.
// Kept: a rule of the project: actions and prices are two tables of the caller's.
#[derive(Clone, Copy)]
pub struct SheetTask<'a, K, H, A> {
    kind: PhantomData<K>,
    head: H,
    actions: &'a [A],
    prices: &'a [u32],
}

// A task of kind K, by the kind alone.
pub type TaskOf<'a, K> = SheetTask<'a, K, <K as SheetKind>::Head, <K as SheetKind>::Action>;

impl<'a, K: SheetKind<Head = H, Action = A>, H: Copy, A: Copy> SheetTask<'a, K, H, A> {
    pub fn new(head: H, actions: &'a [A], prices: &'a [u32]) -> SheetTask<'a, K, H, A>
        ensures over { (result.head ≡ head) × (result.actions.now ≡ actions.now) × (result.prices.now ≡ prices.now) }
        ensures described { Described K.reading K.tasks head actions.now prices.now (task_over K.reading K.tasks result.head result.actions.now result.prices.now) }
    {
        SheetTask {
            kind: PhantomData,
            head,
            actions,
            prices,
        }
    }
}

impl<K: SheetKind<Head = H, Action = A>, H: Copy, A: Copy> Task for SheetTask<'_, K, H, A> {
    ghost model = { λ t. task_over K.reading K.tasks t.head t.actions.now t.prices.now };

    fn states(&self) -> u32 {
        K::states(&self.head)
    }

    fn actions(&self) -> u16 {
        K::actions(&self.head)
    }

    fn transition(&self, state: u32, action: u16) -> Option<Transition> {
        if state >= K::states(&self.head) || action >= K::actions(&self.head) {
            return None;
        }
        let at = action as usize;
        let action = self.actions.get(at)?;
        let price = self.prices.get(at)?;
        K::perform(&self.head, state, action, *price)
    }

    fn is_goal(&self, state: u32) -> bool {
        state < K::states(&self.head) && K::is_goal(&self.head, state)
    }
}
