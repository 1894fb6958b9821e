// Marks the questions about a sheet on standard input, a line for each.
#![tactic(auto)]

use answers::answer;
use anyhow::anyhow;
use costs::coins::Coins;
use intake::read_at_most;
use open_lists::heap::Place;
use planning::cost::Record;
use planning::refusal::Refusal;
use planning::task::Task;
use questions::input::{Asked, split};
use questions::line::{write_line, write_refused};
use sheets::finite_domain::Variables;
use sheets::kind::SheetKind;
use sheets::reading::read;
use sheets::sheet::{SheetHead, read_head};
use sheets::strips::Facts;
use sheets::task::TaskOf;

// Kept: no plainer: the limits are those of this program, and another may have others.
const MOST_BYTES: usize = 65536;

const MOST_ACTIONS: usize = 512;

// Tasks of up to so many states are marked; larger ones are refused question by question.
const STATES: usize = 1024;

// Prints a line that was written into a buffer.
// Kept: a rule of the project: a line is made by a public call into a buffer, which answers how much of it is the line.
fn show(rt: &HostRuntime, buffer: &[u8], written: Result<usize, Refusal>) -> anyhow::Result<()> {
    let line = written
        .ok()
        .and_then(|n| buffer.get(..n))
        .ok_or_else(|| anyhow!("a line did not fit its buffer"))?;
    let text = std::str::from_utf8(line).map_err(|_| anyhow!("a line is not text"))?;
    rt.print(text)?;
    Ok(())
}

fn show_refused(rt: &HostRuntime, refusal: Refusal) -> anyhow::Result<()> {
    let mut buffer = [0; 32];
    let written = write_refused(&mut buffer, refusal);
    show(rt, &buffer, written)
}

// Each question of an input about its task.
fn show_answers<T: Task>(rt: &HostRuntime, task: &T, asked: Asked<'_>) -> anyhow::Result<()> {
    let heap = rt.alloc();
    let mut table = vec![in heap; Record::<Coins>::unknown(); STATES]?;
    let mut places = vec![in heap; Place::<Coins>::blank(); STATES]?;
    for question in (0..asked.count).filter_map(|number| asked.question(number)) {
        let state = question.state;
        let action = question.action;
        let given = answer(task, &mut places, &mut table, state, action);
        let mut buffer = [0; 32];
        let written = write_line(&mut buffer, state, action, given);
        show(rt, &buffer, written)?;
    }
    Ok(())
}

// A sheet of kind K with this head, and the questions about it.
fn show_kind<K: SheetKind>(
    rt: &HostRuntime,
    asked: Asked<'_>,
    head: K::Head,
) -> anyhow::Result<()> {
    let heap = rt.alloc();
    let mut actions = vec![in heap; K::blank(); MOST_ACTIONS]?;
    let mut prices = vec![in heap; 0u32; MOST_ACTIONS]?;
    match read::<K>(asked.sheet, &mut actions, &mut prices) {
        Ok(_) => show_answers(rt, &TaskOf::<K>::new(head, &actions, &prices), asked),
        Err(refusal) => show_refused(rt, refusal),
    }
}

fn show_sheet(rt: &HostRuntime, asked: Asked<'_>) -> anyhow::Result<()> {
    // Kept: no plainer: a type parameter is chosen by a match, here with one call for each kind. The head that each call
    // takes is of that kind's type, so that no sheet is read as one of the other kind.
    match read_head(asked.sheet) {
        Ok(SheetHead::Strips(head)) => show_kind::<Facts>(rt, asked, head),
        Ok(SheetHead::FiniteDomain(head)) => show_kind::<Variables>(rt, asked, head),
        Err(refusal) => show_refused(rt, refusal),
    }
}

fn run(rt: &HostRuntime) -> anyhow::Result<()> {
    let mut source = rt.stdin();
    let input = read_at_most(&mut source, rt.alloc(), MOST_BYTES)?;
    match split(&input) {
        Ok(asked) => show_sheet(rt, asked),
        Err(refusal) => show_refused(rt, refusal),
    }
}

fn main(rt: HostRuntime) -> anyhow::Result<()> {
    run(&rt)
}
