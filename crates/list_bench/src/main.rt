// A fixed mix of calls on both open lists, for tools that count instructions. With arguments LIST STATES ROUNDS it
// runs that one alone.
#![tactic(auto)]

use anyhow::anyhow;
use costs::coins::Coins;
use open_lists::flat::{Flat, Slot};
use open_lists::heap::{Heap, Place};
use planning::open_list::OpenList;
use std::env;

#[derive(Clone, Copy)]
enum Kind {
    Heap,
    Flat,
}

// The lists, states and rounds of a run without arguments.
const RUNS: [(Kind, u32, u32); 7] = [
    (Kind::Heap, 64, 4096),
    (Kind::Flat, 64, 4096),
    (Kind::Heap, 1024, 4096),
    (Kind::Flat, 1024, 4096),
    (Kind::Heap, 65536, 64),
    (Kind::Flat, 65536, 64),
    (Kind::Heap, 65536, 65536),
];

// A stream of numbers that is the same in every run.
#[derive(Drop)]
struct Numbers {
    seed: u64,
    made: u64,
}

impl Numbers {
    fn state(&mut self, states: u32) -> u32 {
        self.seed = self
            .seed
            .wrapping_mul(6364136223846793005)
            .wrapping_add(1442695040888963407);
        ((self.seed >> 33) % states.max(1) as u64) as u32
    }

    // Different each time, so that both lists take the same entries.
    fn front(&mut self) -> Coins {
        self.made = self.made.wrapping_add(1);
        let high = self.state(1000000) as u64;
        Coins {
            amount: (high << 32) | (self.made & 0xffff_ffff),
        }
    }
}

// What was done, and the fronts that were taken, added up without carry.
#[derive(Clone, Copy)]
struct Tally {
    puts: u32,
    takes: u32,
    fronts: u64,
}

fn fill<L: OpenList<Cost = Coins>>(list: &mut L, numbers: &mut Numbers, tally: &mut Tally) {
    for state in 0..list.capacity() {
        list.put(state, numbers.front(), false);
        tally.puts = tally.puts.saturating_add(1);
    }
}

// In each round one entry is taken, and two are put for states of any number.
fn mix<L: OpenList<Cost = Coins>>(
    list: &mut L,
    numbers: &mut Numbers,
    tally: &mut Tally,
    rounds: u32,
) {
    for round in 0..2 * rounds as u64 {
        if round % 2 == 0 {
            if let Some(entry) = list.take() {
                tally.takes = tally.takes.saturating_add(1);
                tally.fronts ^= entry.front.amount;
            }
        }
        let state = numbers.state(list.capacity());
        list.put(state, numbers.front(), false);
        tally.puts = tally.puts.saturating_add(1);
    }
}

fn work<L: OpenList<Cost = Coins>>(list: &mut L, rounds: u32) -> Tally {
    let mut numbers = Numbers { seed: 1, made: 0 };
    let mut tally = Tally {
        puts: 0,
        takes: 0,
        fronts: 0,
    };
    fill(list, &mut numbers, &mut tally);
    mix(list, &mut numbers, &mut tally, rounds);
    tally
}

fn report<L: OpenList<Cost = Coins>>(
    rt: &impl Print,
    name: &str,
    list: &mut L,
    rounds: u32,
) -> anyhow::Result<()> {
    let states = list.capacity();
    let Tally {
        puts,
        takes,
        fronts,
    } = work(list, rounds);
    println!(rt; "{name} of {states}: {puts} puts, {takes} takes, {fronts:016x}")?;
    Ok(())
}

// Kept: no plainer: the lists differ in the type of what is lent, which a trait could name only with the loan's lifetime.
fn run(rt: &(impl Print + Alloc), kind: Kind, states: u32, rounds: u32) -> anyhow::Result<()> {
    match kind {
        Kind::Heap => {
            let mut places = vec![in rt.alloc(); Place::<Coins>::blank(); states as usize]?;
            report(rt, "heap", &mut Heap::new(places.as_mut_slice()), rounds)
        }
        Kind::Flat => {
            let mut slots = vec![in rt.alloc(); Slot::<Coins>::blank(); states as usize]?;
            report(rt, "flat", &mut Flat::new(slots.as_mut_slice()), rounds)
        }
    }
}

fn run_all(rt: &(impl Print + Alloc)) -> anyhow::Result<()> {
    for (kind, states, rounds) in RUNS {
        run(rt, kind, states, rounds)?;
    }
    Ok(())
}

fn number(word: Option<String>) -> anyhow::Result<u32> {
    let digits = word.ok_or_else(|| anyhow!("heap or flat, states, rounds"))?;
    Ok(digits.as_str().parse::<u32>()?)
}

fn main(rt: HostRuntime) -> anyhow::Result<()> {
    let mut words = env::args(&rt)?.skip(1);
    let Some(list) = words.next() else {
        return run_all(&rt);
    };
    let kind = match list.as_str() {
        "flat" => Kind::Flat,
        _ => Kind::Heap,
    };
    let states = number(words.next())?;
    let rounds = number(words.next())?;
    run(&rt, kind, states, rounds)
}
