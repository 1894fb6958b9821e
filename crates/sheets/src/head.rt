// What the head of a sheet says. A head that exists is valid.
ghost use Rattle.std.specs.Prelude.{◌≡◌, ◌^◌, ◌<◌, ◌≤◌, false, take, is_some};
ghost use Rattle.planning.specs.Checks.{first_failing};
ghost use Rattle.sheet_layout.specs.FiniteDomain.{product, finite_domain_head};

// Facts, actions, and the start and the goal as sets of facts, bit i for fact i.
#[derive(Clone, Copy, PartialEq, Eq, Debug)]
pub struct StripsHead {
    pub facts: u8,
    pub actions: u16,
    pub start: u32,
    pub goal: u32,
    ghost some_fact: { 1 ≤ facts },
    ghost few_facts: { facts ≤ 16 },
    ghost some_action: { 1 ≤ actions },
    ghost few_actions: { actions ≤ 512 },
    ghost start_present: { start < 2 ^ facts },
    ghost goal_present: { goal < 2 ^ facts },
}

// Variables, actions and states, and of each variable its number of values, its value at the start
// and its value at the goal, 255 for any.
// Kept: no plainer: the three lists share one length and one fixed memory, and each is read, checked and compared as a
// slice of its own.
#[derive(Clone, Copy)]
pub struct FiniteDomainHead {
    pub variables: u8,
    pub actions: u16,
    pub states: u32,
    pub counts: [u8; 16],
    pub start: [u8; 16],
    pub goal: [u8; 16],
    ghost valid: { is_some (first_failing (finite_domain_head variables actions (take variables counts) (take variables start) (take variables goal))) ≡ false },
    ghost total: { states ≡ product (take variables counts) },
}
