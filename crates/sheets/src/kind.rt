// The two kinds of sheet, and what each does in its own way.
ghost use Rattle.std.specs.Prelude.{◌≡◌, ℕ, ◌<◌, ◌≤◌, true, List, length, if◌then◌else◌, Some, None, ◌==◌};
ghost use Rattle.planning.specs.Checks.{first_failing};
ghost use Rattle.planning.specs.Outcomes.{Answers};
ghost use Rattle.planning.specs.Task.{TaskLaws};
ghost use Rattle.sheet_layout.specs.Frame.{opening_checks};
ghost use Rattle.sheet_layout.specs.Numbers.{byte_at, num16};
ghost use Rattle.sheets.specs.declared.kind.Kind.TheVariants.{Strips, FiniteDomain};
ghost use Rattle.sheets.specs.Kinds.{Reading, ReadingLaws, Tasks, TasksLaws, task_over, code_of, Decoded};

use crate::bytes::byte_at;
use planning::refusal::Refusal;
use planning::task::Transition;

// Facts that hold or not, or variables with several values.
#[derive(Clone, Copy, PartialEq, Eq, Debug)]
pub enum Kind {
    Strips = 1,
    FiniteDomain = 2,
}

impl Kind {
    // The kind of a sheet by its kind byte. An unknown kind is taken for facts, whose checks refuse it.
    pub fn of(sheet: &[u8]) -> Kind
        ensures { result ≡ (if byte_at sheet.now 5 == 2 then FiniteDomain else Strips) }
    {
        Kind::try_from(byte_at(sheet, 5)).unwrap_or(Kind::Strips)
    }
}

// The kind that a byte stands for.
impl TryFrom<u8> for Kind {
    type Error = Refusal;

    ghost try_from_gives = { Decoded };

    fn try_from(code: u8) -> Result<Kind, Refusal> {
        match code {
            1 => Ok(Kind::Strips),
            2 => Ok(Kind::FiniteDomain),
            _ => Err(Refusal::Kind),
        }
    }
}

// The byte that stands for a kind.
impl From<Kind> for u8 {
    ghost from_gives = { λ kind code. code ≡ code_of kind };

    fn from(kind: Kind) -> u8 {
        kind as u8
    }
}

// What the first nine bytes of a sheet say: the number of facts or variables, and of actions.
#[derive(Clone, Copy)]
pub struct Opening {
    pub size: u8,
    pub actions: u16,
}

// What a kind of sheet does in its own way: its head, its actions, and the tasks that they make.
pub trait SheetKind {
    type Head: Copy;

    // An action in a table.
    type Action: Copy;

    ghost reading: { Reading Self.Head Self.Action };

    ghost tasks: { Tasks reading };

    fn kind() -> Kind
        ensures { code_of result ≡ reading.kind.code };

    // The head of a sheet whose opening passed.
    fn head(sheet: &[u8], opening: Opening) -> Result<Self::Head, Refusal>
        requires passed { first_failing (opening_checks reading.kind sheet.now) ≡ None }
        requires opening { (opening.size ≡ byte_at sheet.now 6) × (opening.actions ≡ num16 sheet.now 7) }
        ensures { Answers (first_failing (reading.head_checks sheet.now)) (reading.HeadAt sheet.now) result };

    // The number of actions.
    fn actions(head: &Self::Head) -> u16
        ensures { result ≡ reading.count head.now };

    // Where the first record begins.
    fn first_record(head: &Self::Head) -> usize
        ensures { result ≡ reading.begins head.now };

    // Where the preconditions and effects that begin at `at` end, if they lie before `end`.
    fn ending(sheet: &[u8], at: usize, end: usize) -> Option<usize>
        requires { (at ≤ end) × (end ≤ length sheet.now) }
        ensures { result ≡ (if reading.kind.fits sheet.now at end then Some (reading.kind.ending sheet.now at) else None) };

    // Whether they name only what the sheet has.
    fn present(sheet: &[u8], at: usize) -> bool
        requires { reading.kind.ending sheet.now at ≤ length sheet.now }
        ensures { result ≡ reading.kind.present sheet.now at };

    // The action whose preconditions and effects begin at `at`, in a sheet whose head passed.
    fn action_at(sheet: &[u8], at: usize) -> Self::Action
        requires headed { first_failing (reading.head_checks sheet.now) ≡ None }
        requires inside { reading.kind.ending sheet.now at ≤ length sheet.now }
        requires present { reading.kind.present sheet.now at ≡ true }
        ensures { result ≡ reading.enters (reading.does_at sheet.now at) };

    // An action that needs and does nothing, for tables that are still to be filled.
    fn blank() -> Self::Action
        ensures { result ≡ reading.blank };

    // The number of states. Promises besides that the tasks keep the ranges of a task.
    fn states(head: &Self::Head) -> u32
        ensures value { result ≡ tasks.states head.now }
        ensures lawful { (actions : List Self.Action) (prices : List ℕ) → TaskLaws (task_over reading tasks head.now actions prices) };

    // Where an action leads from a state, at a price; nowhere if it is not applicable.
    fn perform(
        head: &Self::Head,
        state: u32,
        action: &Self::Action,
        price: u32,
    ) -> Option<Transition>
        requires { state < tasks.states head.now }
        ensures { result ≡ tasks.does head.now state action.now price };

    fn is_goal(head: &Self::Head, state: u32) -> bool
        requires { state < tasks.states head.now }
        ensures { result ≡ tasks.goal head.now state };

    ghost laws: { ReadingLaws reading };

    ghost task_laws: { TasksLaws reading tasks };
}
