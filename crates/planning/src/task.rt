// A planning task, as a search sees it: numbered states and actions, transitions and goals.
ghost use Rattle.std.specs.Prelude.{◌≡◌};
ghost use Rattle.planning.specs.Task.{Model, TaskLaws};

// Where an action leads, and its base cost.
#[derive(Clone, Copy, PartialEq, Eq, Debug)]
pub struct Transition {
    pub state: u32,
    pub coins: u32,
}

pub trait Task {
    // The task itself: everything below answers by it, for every number, absent ones included.
    ghost model: { Self → Model };

    // Promises besides that the task keeps the ranges of a task.
    fn states(&self) -> u32
        ensures value { result ≡ (model self.now).states }
        ensures lawful { TaskLaws (model self.now) };

    fn actions(&self) -> u16
        ensures { result ≡ (model self.now).actions };

    fn transition(&self, state: u32, action: u16) -> Option<Transition>
        ensures { result ≡ (model self.now).transition state action };

    fn is_goal(&self, state: u32) -> bool
        ensures { result ≡ (model self.now).goal state };
}
