// Marks every action of a small task in every state, with both open lists and under both costs.
#![tactic(auto)]

use costs::coins::Coins;
use costs::coins_then_actions::CoinsThenActions;
use heuristics::blind::Blind;
use marker::mark::mark;
use open_lists::flat::{Flat, Slot};
use open_lists::heap::{Heap, Place};
use planning::cost::{CostAlgebra, Record};
use planning::open_list::OpenList;
use planning::refusal::Refusal;
use planning::status::Status;
use planning::task::Task;
use sheets::head::StripsHead;
use sheets::strips::StripsAction;
use sheets::strips_task::StripsTask;
use std::io;

const STATES: usize = 8;

const fn action(preconditions: u32, adds: u32, deletes: u32) -> StripsAction {
    StripsAction {
        preconditions,
        adds,
        deletes,
    }
}

const PRICES: [u32; 7] = [1, 1, 1, 1, 3, 0, 1];

fn show(
    rt: &impl Print,
    state: u32,
    action: u16,
    answer: Result<(Status, u32), Refusal>,
) -> io::Result<()> {
    match answer {
        Ok((status, turns)) => println!(rt; "{state} {action} {status} {turns}"),
        Err(refusal) => {
            let number = refusal.number();
            println!(rt; "{state} {action} refused {number}")
        }
    }
}

fn mark_all<T: Task, L: OpenList>(
    rt: &impl Print,
    list_name: &str,
    cost_name: &str,
    task: &T,
    list: &mut L,
    table: &mut [Record<L::Cost>],
) -> io::Result<()> {
    println!(rt; "{list_name}, {cost_name}")?;
    let blind: Blind<L::Cost> = Blind::new();
    for state in 0..task.states() {
        for action in 0..task.actions() {
            let answer = mark(task, &blind, list, table, state, action, 8);
            show(rt, state, action, answer)?;
        }
    }
    Ok(())
}

// With both open lists, under one cost.
// Kept: no plainer: the lists differ in the type of what is lent, which a trait could name only with the loan's lifetime,
// and a generic function cannot make the arrays, whose size has no bound there.
fn mark_under<K: CostAlgebra>(
    rt: &impl Print,
    cost_name: &str,
    task: &StripsTask<'_>,
    table: &mut [Record<K>],
    places: &mut [Place<K>],
    slots: &mut [Slot<K>],
) -> io::Result<()> {
    let mut heap = Heap::new(places);
    mark_all(rt, "heap", cost_name, task, &mut heap, table)?;
    let mut flat = Flat::new(slots);
    mark_all(rt, "flat", cost_name, task, &mut flat, table)
}

fn main(rt: HostRuntime) -> io::Result<()> {
    let actions = [
        action(0, 1, 0),
        action(0, 2, 0),
        action(1, 4, 0),
        action(2, 4, 0),
        action(0, 4, 0),
        action(0, 0, 0),
        action(0, 1, 1),
    ];
    let Ok(head) = StripsHead::new(3, 7, 0, 4) else {
        return Ok(());
    };
    let task = StripsTask::new(head, &actions, &PRICES);
    let mut table = [Record::<Coins>::unknown(); STATES];
    let mut places = [Place::<Coins>::blank(); STATES];
    let mut slots = [Slot::<Coins>::blank(); STATES];
    mark_under(&rt, "coins", &task, &mut table, &mut places, &mut slots)?;
    let mut table = [Record::<CoinsThenActions>::unknown(); STATES];
    let mut places = [Place::<CoinsThenActions>::blank(); STATES];
    let mut slots = [Slot::<CoinsThenActions>::blank(); STATES];
    mark_under(
        &rt,
        "coins then actions",
        &task,
        &mut table,
        &mut places,
        &mut slots,
    )
}
