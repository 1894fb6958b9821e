#![tactic(auto)]

// Markings call by call: refusals at their edges, budgets, lists that were altered, and a state that is taken twice.
#[cfg(test)]
mod tests {
    use costs::coins::Coins;
    use heuristics::blind::Blind;
    use heuristics::table::Table;
    use marker::mark::mark;
    use marker::marking::Marking;
    use open_lists::flat::{Flat, Slot};
    use open_lists::heap::{Heap, Place};
    use planning::cost::{CostAlgebra, Record};
    use planning::open_list::OpenList;
    use planning::refusal::Refusal;
    use planning::status::Status;
    use sheets::finite_domain::FiniteDomainAction;
    use sheets::finite_domain_task::FiniteDomainTask;
    use sheets::head::{FiniteDomainHead, StripsHead};
    use sheets::strips::StripsAction;
    use sheets::strips_task::StripsTask;
    use std::test::Fail;

    // Kept: no plainer: these tests and a program write the same small task, each as its own.
    fn action(preconditions: u32, adds: u32, deletes: u32) -> StripsAction {
        StripsAction {
            preconditions,
            adds,
            deletes,
        }
    }

    // Three facts, the third the goal; two ways of cost 2 to it.
    fn actions() -> [StripsAction; 7] {
        [
            action(0, 1, 0),
            action(0, 2, 0),
            action(1, 4, 0),
            action(2, 4, 0),
            action(0, 4, 0),
            action(0, 0, 0),
            action(0, 1, 1),
        ]
    }

    const PRICES: [u32; 7] = [1, 1, 1, 1, 3, 0, 1];

    // A refusal's number and place, or zeros.
    // Kept: no plainer: a row of a table of cases has a number and a place, zeros for none.
    fn told(answer: Result<(Status, u32), Refusal>) -> (u8, u64) {
        match answer {
            Ok(_) => (0, 0),
            Err(refusal) => (refusal.number(), refusal.place().number()),
        }
    }

    fn marked(
        task: &StripsTask<'_>,
        places: &mut [Place<Coins>],
        table: &mut [Record<Coins>],
        state: u32,
        action: u16,
        limit: u32,
    ) -> (u8, u64) {
        let blind: Blind<Coins> = Blind::new();
        let mut heap = Heap::new(places);
        told(mark(task, &blind, &mut heap, table, state, action, limit))
    }

    // What a start refuses: state, action, limit, the size of table and list, and the answer.
    #[test]
    fn starts_are_refused(rt: HostRuntime) -> Result<(), Fail> {
        let actions = actions();
        let task = StripsTask::new(StripsHead::new(3, 7, 0, 4)?, &actions, &PRICES);
        let cases: [(u32, u16, u32, usize, usize, u8, u64); 10] = [
            (0, 2, 100, 8, 8, 15, 2),
            (4, 0, 100, 8, 8, 16, 4),
            (4, 2, 100, 8, 8, 15, 2),
            (8, 0, 100, 9, 9, 13, 8),
            (0, 7, 100, 8, 8, 14, 7),
            (0, 0, 0, 8, 8, 12, 0),
            (8, 0, 100000001, 8, 8, 12, 0),
            (8, 0, 0, 7, 8, 9, 8),
            (0, 0, 1, 8, 7, 9, 8),
            (0, 0, 100000000, 8, 8, 0, 0),
        ];
        for (state, action, limit, records, room, number, place) in cases {
            let mut table = [Record::<Coins>::unknown(); 9];
            let mut places = [Place::<Coins>::blank(); 9];
            if records <= 9 && room <= 9 {
                let answer = marked(
                    &task,
                    &mut places[0..room],
                    &mut table[0..records],
                    state,
                    action,
                    limit,
                );
                assert_eq!(rt; answer, (number, place));
            }
        }
        Ok(())
    }

    // The answer of a marking that is advanced by the same budget again and again.
    fn stepwise(task: &StripsTask<'_>, action: u16, budget: u32) -> Result<(Status, u32), Refusal> {
        let blind: Blind<Coins> = Blind::new();
        let mut table = [Record::<Coins>::unknown(); 8];
        let mut slots = [Slot::<Coins>::blank(); 8];
        let mut list = Flat::new(&mut slots);
        let mut marking = Marking::fresh();
        marking.start(task, &blind, &mut list, &mut table, 0, action, 100)?;
        for _ in 0..100 {
            if marking
                .advance(task, &blind, &mut list, &mut table, budget)
                .is_err()
            {
                break;
            }
        }
        Ok(marking.look())
    }

    // Turns one by one and all at once come to the same answer; the actions are those of the state 0.
    #[test]
    fn budgets_do_not_matter(rt: HostRuntime) -> Result<(), Fail> {
        let actions = actions();
        let task = StripsTask::new(StripsHead::new(3, 7, 0, 4)?, &actions, &PRICES);
        let cases: [(u16, Status); 5] = [
            (0, Status::Best),
            (1, Status::Best),
            (4, Status::Other),
            (5, Status::Best),
            (6, Status::Best),
        ];
        for (action, status) in cases {
            let one = stepwise(&task, action, 1)?;
            let all = stepwise(&task, action, 1000000)?;
            assert_eq!(rt; one, all);
            assert_eq!(rt; one.0, status);
        }
        Ok(())
    }

    // What an advance refuses, and what it meets in a list that was altered.
    #[test]
    fn advances_are_refused(rt: HostRuntime) -> Result<(), Fail> {
        let actions = actions();
        let task = StripsTask::new(StripsHead::new(3, 7, 0, 4)?, &actions, &PRICES);
        let blind: Blind<Coins> = Blind::new();
        let mut table = [Record::<Coins>::unknown(); 8];
        let mut short = [Record::<Coins>::unknown(); 7];
        let mut slots = [Slot::<Coins>::blank(); 8];
        let mut list = Flat::new(&mut slots);
        let mut marking = Marking::fresh();
        assert_eq!(rt;
            told(marking.advance(&task, &blind, &mut list, &mut table, 1)),
            (17, 0)
        );
        assert_eq!(rt;
            told(marking.advance(&task, &blind, &mut list, &mut table, 1000001)),
            (12, 0)
        );
        assert!(rt;
            marking
                .start(&task, &blind, &mut list, &mut table, 0, 4, 100)
                .is_ok()
        );
        assert_eq!(rt;
            told(marking.advance(&task, &blind, &mut list, &mut short, 1)),
            (9, 8)
        );
        assert!(rt; list.put(7, Coins::zero(), true));
        assert_eq!(rt;
            told(marking.advance(&task, &blind, &mut list, &mut table, 1)),
            (18, 7)
        );
        list.clear();
        assert_eq!(rt;
            told(marking.advance(&task, &blind, &mut list, &mut table, 1)),
            (18, 8)
        );
        assert_eq!(rt; marking.look(), (Status::Open, 0));
        Ok(())
    }

    fn only(value: u8) -> [u8; 16] {
        [
            value, 255, 255, 255, 255, 255, 255, 255, 255, 255, 255, 255, 255, 255, 255, 255,
        ]
    }

    fn step(from: u8, to: u8) -> FiniteDomainAction {
        FiniteDomainAction {
            preconditions: only(from),
            effects: only(to),
        }
    }

    // Four states: 0 to 1 costs 1, 0 to 2 costs 3, 1 to 2 costs 1, 2 to the goal 3 costs 5. The estimate 6 at 1 is
    // admissible but falls by more than the action costs, so 2 is taken by way of 0 first and again by way of 1.
    #[test]
    fn a_state_is_taken_twice(rt: HostRuntime) -> Result<(), Fail> {
        let actions = [step(0, 1), step(0, 2), step(1, 2), step(2, 3)];
        let prices = [1, 3, 1, 5];
        let mut counts = [2; 16];
        counts[0] = 4;
        let task = FiniteDomainTask::new(
            FiniteDomainHead::new(1, 4, counts, [0; 16], only(3))?,
            &actions,
            &prices,
        );
        let mut table = [Record::<Coins>::unknown(); 4];
        let mut places = [Place::<Coins>::blank(); 4];
        let mut heap = Heap::new(&mut places);
        let inconsistent: Table<Coins> = Table::new(&task, &[0, 6, 0, 0])?;
        assert_eq!(rt;
            mark(&task, &inconsistent, &mut heap, &mut table, 0, 1, 100),
            Ok((Status::Other, 5))
        );
        let blind: Blind<Coins> = Blind::new();
        assert_eq!(rt;
            mark(&task, &blind, &mut heap, &mut table, 0, 1, 100),
            Ok((Status::Other, 4))
        );
        let high: Table<Coins> = Table::new(&task, &[4000000000, 4000000000, 0, 4000000000])?;
        assert!(rt; mark(&task, &high, &mut heap, &mut table, 0, 0, 100).is_ok());
        Ok(())
    }
}
