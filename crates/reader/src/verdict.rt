// From the bytes of a sheet to the answer to a question about it, in memory of its own.
ghost use Rattle.std.specs.Prelude.{◌≡◌, ◌*◌, ◌^◌, ◌<◌, ◌≤◌, None};
ghost use Rattle.std.specs.Mem.{type_size};
ghost use Rattle.planning.specs.Checks.{first_failing};
ghost use Rattle.sheet_layout.specs.Numbers.{num16};
ghost use Rattle.sheets.specs.Kinds.{checks_of};
ghost use Rattle.reader.specs.Verdicts.{Answered, KindAnswered, SheetAnswered};

use answers::answer;
use costs::coins::Coins;
use open_lists::heap::Place;
use planning::cost::Record;
use planning::refusal::Refusal;
use planning::status::Status;
use planning::task::Task;
use sheets::finite_domain::Variables;
use sheets::kind::{Kind, SheetKind};
use sheets::reading::read;
use sheets::strips::Facts;
use sheets::task::TaskOf;

// Kept: no plainer: the limits are those of this library, and a program may have others.
const MOST_ACTIONS: usize = 512;

// Tasks of up to so many states are marked, and larger ones refused.
const STATES: usize = 1024;

// Kept: no plainer: a sheet, a state and an action go through three functions as they came from C, and a struct of them
// would be made once and taken apart once.

// The answer to a question about a task, with a table and a list for 1,024 states.
fn answer_within<T: Task>(task: &T, state: u32, action: u16) -> Result<Status, Refusal>
    ensures { Answered (T.Task.model task.now) state action result }
{
    let mut table = [Record::<Coins>::unknown(); STATES];
    let mut places = [Place::<Coins>::blank(); STATES];
    answer(task, &mut places, &mut table, state, action)
}

// The answer to a question about the task of a sheet of kind K.
fn answer_kind<K: SheetKind>(sheet: &[u8], state: u32, action: u16) -> Result<Status, Refusal>
    requires { 512 * type_size K.Action.row < 2 ^ 63 }
    ensures { KindAnswered (checks_of K.reading sheet.now) (K.reading.LaidOut sheet.now) K.tasks.task_of state action result }
{
    let mut actions = [K::blank(); MOST_ACTIONS];
    let mut prices = [0; MOST_ACTIONS];
    let head = read::<K>(sheet, &mut actions, &mut prices)?;
    answer_within(&TaskOf::<K>::new(head, &actions, &prices), state, action)
}

// Whether a cheapest solution of a sheet's task from a state begins with an action: a verdict, or a refusal.
pub fn answer_sheet(sheet: &[u8], state: u32, action: u16) -> Result<Status, Refusal>
    ensures { SheetAnswered sheet.now state action result }
{
    // Kept: no plainer: a type parameter is chosen by a match, here with one call for each kind.
    match Kind::of(sheet) {
        Kind::Strips => answer_kind::<Facts>(sheet, state, action),
        Kind::FiniteDomain => answer_kind::<Variables>(sheet, state, action),
    }
}
