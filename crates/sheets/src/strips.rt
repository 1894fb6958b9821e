// Fact sheets: STRIPS tasks.
ghost use Rattle.std.specs.Prelude.{◌≡◌, ◌+◌, ◌^◌, ◌≤◌, length, nat_lt};
ghost use Rattle.planning.specs.Checks.{first_failing};
ghost use Rattle.planning.specs.Outcomes.{Answers};
ghost use Rattle.sheet_layout.specs.Numbers.{num32};
ghost use Rattle.sheet_layout.specs.Strips.{strips_head};
ghost use Rattle.sheets.specs.Described.{strips_tasks_laws};
ghost use Rattle.sheets.specs.Reading.{strips_reading};
ghost use Rattle.sheets.specs.StripsTasks.{strips_tasks};
ghost use Rattle.sheets.specs.Laws.{strips_reading_laws};

use crate::bytes::u32_at;
use crate::frame::check_sizes;
use crate::head::StripsHead;
use crate::kind::{Kind, Opening, SheetKind};
use planning::refusal::Refusal;
use planning::task::Transition;

// What an action needs and does, as sets of facts.
#[derive(Clone, Copy, PartialEq, Eq, Debug)]
pub struct StripsAction {
    pub preconditions: u32,
    pub adds: u32,
    pub deletes: u32,
}

// Whether a set holds only facts below a number.
pub(crate) fn holds_only(set: u32, facts: u8) -> bool
    ensures { result ≡ nat_lt set (2 ^ facts) }
{
    facts >= 32 || set >> facts == 0
}

// The kind of sheet that is made of facts.
#[derive(Clone, Copy)]
pub struct Facts;

impl SheetKind for Facts {
    type Head = StripsHead;

    type Action = StripsAction;

    ghost reading = { strips_reading };

    ghost tasks = { strips_tasks };

    fn kind() -> Kind {
        Kind::Strips
    }

    fn head(sheet: &[u8], opening: Opening) -> Result<StripsHead, Refusal> {
        StripsHead::new(
            opening.size,
            opening.actions,
            u32_at(sheet, 9),
            u32_at(sheet, 13),
        )
    }

    fn actions(head: &StripsHead) -> u16 {
        head.actions
    }

    fn first_record(_head: &StripsHead) -> usize {
        17
    }

    fn ending(_sheet: &[u8], at: usize, _end: usize) -> Option<usize> {
        Some(at + 12)
    }

    fn present(sheet: &[u8], at: usize) -> bool {
        let facts = sheet[6];
        holds_only(u32_at(sheet, at), facts)
            && holds_only(u32_at(sheet, at + 4), facts)
            && holds_only(u32_at(sheet, at + 8), facts)
    }

    fn action_at(sheet: &[u8], at: usize) -> StripsAction {
        masks_at(sheet, at)
    }

    fn blank() -> StripsAction {
        StripsAction {
            preconditions: 0,
            adds: 0,
            deletes: 0,
        }
    }

    fn states(head: &StripsHead) -> u32 {
        1 << head.facts
    }

    fn perform(
        head: &StripsHead,
        state: u32,
        action: &StripsAction,
        price: u32,
    ) -> Option<Transition> {
        head.perform(state, action, price)
    }

    fn is_goal(head: &StripsHead, state: u32) -> bool {
        state & head.goal == head.goal
    }

    ghost laws = { strips_reading_laws };

    ghost task_laws = { strips_tasks_laws };
}

impl StripsHead {
    pub fn new(facts: u8, actions: u16, start: u32, goal: u32) -> Result<StripsHead, Refusal>
        ensures { Answers (first_failing (strips_head facts actions start goal)) (λ h. (h.facts ≡ facts) × (h.actions ≡ actions) × (h.start ≡ start) × (h.goal ≡ goal)) result }
    {
        check_sizes(facts, actions)?;
        if !holds_only(start, facts) {
            return Err(Refusal::StartOrGoal { byte: 9 });
        }
        if !holds_only(goal, facts) {
            return Err(Refusal::StartOrGoal { byte: 13 });
        }
        Ok(StripsHead {
            facts,
            actions,
            start,
            goal,
        })
    }
}

// What the action whose masks stand at a place needs and does.
pub(crate) fn masks_at(sheet: &[u8], at: usize) -> StripsAction
    requires { at + 12 ≤ length sheet.now }
    ensures { (result.preconditions ≡ num32 sheet.now at) × (result.adds ≡ num32 sheet.now (at + 4)) × (result.deletes ≡ num32 sheet.now (at + 8)) }
{
    StripsAction {
        preconditions: u32_at(sheet, at),
        adds: u32_at(sheet, at + 4),
        deletes: u32_at(sheet, at + 8),
    }
}
