// Prints what a sheet on standard input holds, or where it is damaged.
#![tactic(auto)]

use intake::read_at_most;
use itertools::Itertools;
use planning::refusal::Refusal;
use planning::task::Task;
use sheets::finite_domain::{ANY, Variables};
use sheets::head::{FiniteDomainHead, StripsHead};
use sheets::kind::SheetKind;
use sheets::reading::read;
use sheets::record::{SheetRecord, record};
use sheets::sheet::{SheetHead, read_head};
use sheets::strips::Facts;
use sheets::task::TaskOf;
use std::alloc::{AllocError, Global};
use std::fmt;

// Kept: no plainer: the limits are those of this program, and another may have others.
const MOST_BYTES: usize = 65536;

const MOST_ACTIONS: usize = 512;

// A name comes from a stranger: what is not printable ASCII is written as \x and two digits.
fn escaped(heap: Global, name: &[u8]) -> Result<String, AllocError> {
    let mut text = String::new(heap);
    for &byte in name {
        if byte == b'\\' || byte < 0x20 || byte > 0x7e {
            write!(text, "\\x{byte:02x}")?;
        } else {
            text.push(byte as char)?;
        }
    }
    Ok(text)
}

// A list as it is printed: a dash where it is empty.
fn or_dash(heap: Global, list: String) -> Result<String, AllocError> {
    if list.is_empty() {
        String::from_str(heap, "-")
    } else {
        Ok(list)
    }
}

// The facts of a set by their numbers.
fn facts_in(heap: Global, set: u32) -> Result<String, AllocError> {
    let mut facts = (0..32u32).filter(|fact| set.wrapping_shr(*fact) & 1 == 1);
    or_dash(heap, facts.join(heap, ",")?)
}

// A variable with a value.
#[derive(Clone, Copy)]
struct Assignment {
    variable: usize,
    value: u8,
}

impl fmt::Display for Assignment {
    fn fmt<W: fmt::Write>(&self, f: &mut fmt::Formatter<W>) -> fmt::Result {
        let Assignment { variable, value } = self;
        write!(f, "{variable}={value}")
    }
}

// The assignments of a list, each a variable and a value.
fn pairs_in(heap: Global, list: &[u8]) -> Result<String, AllocError> {
    let (pairs, _) = list.as_chunks::<2>();
    let mut assignments = pairs.iter().map(|[variable, value]| Assignment {
        variable: *variable as usize,
        value: *value,
    });
    or_dash(heap, assignments.join(heap, ",")?)
}

// The same from a value for each variable, where ANY stands for any.
fn values_in(heap: Global, values: &[u8]) -> Result<String, AllocError> {
    let mut assignments = values
        .iter()
        .enumerate()
        .filter(|(_, value)| **value != ANY)
        .map(|(variable, value)| Assignment {
            variable,
            value: *value,
        });
    or_dash(heap, assignments.join(heap, ",")?)
}

// One action: its number, price and name, what it needs and does, and whether it applies at the start.
fn show_record(
    rt: &HostRuntime,
    number: u16,
    record: SheetRecord<'_>,
    applies: bool,
) -> anyhow::Result<()> {
    let heap = rt.alloc();
    let word = if applies { "applies" } else { "does not apply" };
    match record {
        SheetRecord::Strips(r) => {
            let name = escaped(heap, r.name.bytes)?;
            let coins = r.coins;
            let needs = facts_in(heap, r.preconditions.facts)?;
            let adds = facts_in(heap, r.adds.facts)?;
            let deletes = facts_in(heap, r.deletes.facts)?;
            println!(rt;
                "action {number}: price {coins}, name \"{name}\", preconditions {needs}, adds {adds}, deletes {deletes}, {word} at the start",
            )?;
        }
        SheetRecord::FiniteDomain(r) => {
            let name = escaped(heap, r.name.bytes)?;
            let coins = r.coins;
            let needs = pairs_in(heap, r.preconditions.bytes)?;
            let effects = pairs_in(heap, r.effects.bytes)?;
            println!(rt;
                "action {number}: price {coins}, name \"{name}\", preconditions {needs}, effects {effects}, {word} at the start",
            )?;
        }
    }
    Ok(())
}

// Each action of a sheet, and how many of them apply at the start.
fn show_actions<T: Task>(
    rt: &HostRuntime,
    sheet: &[u8],
    task: &T,
    start: u32,
) -> anyhow::Result<()> {
    let given = sheet.len();
    let count = task.actions();
    let mut applicable = 0usize;
    for number in 0..count {
        let applies = task.transition(start, number).is_some();
        if applies {
            applicable = applicable.saturating_add(1);
        }
        if let Ok(r) = record(sheet, number) {
            show_record(rt, number, r, applies)?;
        }
    }
    println!(rt; "inspected {given} bytes: {count} actions, {applicable} applicable at the start")?;
    Ok(())
}

fn show_refusal(rt: &HostRuntime, sheet: &[u8], refusal: Refusal) -> anyhow::Result<()> {
    let given = sheet.len();
    println!(rt; "{refusal}")?;
    println!(rt; "inspected {given} bytes: refused")?;
    Ok(())
}

// A kind of sheet, by what is printed of its head.
trait Inspected: SheetKind {
    // What there is, the start and the goal.
    fn show_head(rt: &HostRuntime, head: &Self::Head) -> anyhow::Result<()>;

    // The state at the start.
    fn start(head: &Self::Head) -> u32;
}

impl Inspected for Facts {
    fn show_head(rt: &HostRuntime, head: &StripsHead) -> anyhow::Result<()> {
        let heap = rt.alloc();
        let facts = head.facts;
        let count = head.actions;
        let states = Facts::states(head);
        let start = facts_in(heap, head.start)?;
        let goal = facts_in(heap, head.goal)?;
        println!(rt; "facts: {facts} facts, {count} actions, {states} states")?;
        println!(rt; "start: {start}")?;
        println!(rt; "goal: {goal}")?;
        Ok(())
    }

    fn start(head: &StripsHead) -> u32 {
        head.start
    }
}

// The values of the variables that there are.
// Kept: no plainer: a head's lists have one length and one fixed memory, and are public.
fn first(values: &[u8; 16], variables: u8) -> &[u8] {
    values.get(..variables as usize).unwrap_or(values)
}

impl Inspected for Variables {
    fn show_head(rt: &HostRuntime, head: &FiniteDomainHead) -> anyhow::Result<()> {
        let heap = rt.alloc();
        let variables = head.variables;
        let count = head.actions;
        let states = Variables::states(head);
        let values = values_in(heap, first(&head.counts, variables))?;
        let start = values_in(heap, first(&head.start, variables))?;
        let goal = values_in(heap, first(&head.goal, variables))?;
        println!(rt; "dials: {variables} variables, {count} actions, {states} states")?;
        println!(rt; "values: {values}")?;
        println!(rt; "start: {start}")?;
        println!(rt; "goal: {goal}")?;
        Ok(())
    }

    fn start(head: &FiniteDomainHead) -> u32 {
        head.state_with(first(&head.start, head.variables))
            .unwrap_or(0)
    }
}

// A sheet of kind K: its head, and its actions.
fn show_kind<K: Inspected>(rt: &HostRuntime, sheet: &[u8], head: K::Head) -> anyhow::Result<()> {
    let heap = rt.alloc();
    let mut actions = vec![in heap; K::blank(); MOST_ACTIONS]?;
    let mut prices = vec![in heap; 0u32; MOST_ACTIONS]?;
    match read::<K>(sheet, &mut actions, &mut prices) {
        Ok(_) => {
            K::show_head(rt, &head)?;
            let task = TaskOf::<K>::new(head, &actions, &prices);
            show_actions(rt, sheet, &task, K::start(&head))
        }
        Err(refusal) => show_refusal(rt, sheet, refusal),
    }
}

fn show_sheet(rt: &HostRuntime, sheet: &[u8]) -> anyhow::Result<()> {
    // Kept: no plainer: a type parameter is chosen by a match, here with one call for each kind. The head that each call
    // takes is of that kind's type, so that no sheet is read as one of the other kind.
    match read_head(sheet) {
        Ok(SheetHead::Strips(head)) => show_kind::<Facts>(rt, sheet, head),
        Ok(SheetHead::FiniteDomain(head)) => show_kind::<Variables>(rt, sheet, head),
        Err(refusal) => show_refusal(rt, sheet, refusal),
    }
}

fn run(rt: &HostRuntime) -> anyhow::Result<()> {
    let mut source = rt.stdin();
    let sheet = read_at_most(&mut source, rt.alloc(), MOST_BYTES)?;
    show_sheet(rt, &sheet)
}

fn main(rt: HostRuntime) -> anyhow::Result<()> {
    run(&rt)
}
