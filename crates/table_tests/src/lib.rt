#![tactic(auto)]

// What the heuristics answer on a small task, and which tables the check accepts.
//
// The task has three facts. Each action costs one coin: two add the first facts, and the third adds the
// last fact, which is the goal, where both hold.
#[cfg(test)]
mod tests {
    use costs::coins::Coins;
    use costs::coins_then_actions::CoinsThenActions;
    use heuristics::blind::Blind;
    use heuristics::check::check_table;
    use heuristics::maximum::Maximum;
    use heuristics::strided::Strided;
    use heuristics::table::{DEAD_END, Table};
    use planning::cost::CostAlgebra;
    use planning::heuristic::Heuristic;
    use planning::refusal::Refusal;
    use planning::task::Task;
    use sheets::head::StripsHead;
    use sheets::strips::StripsAction;
    use sheets::strips_task::StripsTask;
    use std::test::Fail;

    const ACTIONS: [StripsAction; 3] = [
        StripsAction {
            preconditions: 0,
            adds: 1,
            deletes: 0,
        },
        StripsAction {
            preconditions: 0,
            adds: 2,
            deletes: 0,
        },
        StripsAction {
            preconditions: 3,
            adds: 4,
            deletes: 0,
        },
    ];

    const PRICES: [u32; 3] = [1, 1, 1];

    // The check accepts a table that keeps the rule, and else names the first place that breaks it.
    #[test]
    fn tables_are_checked(rt: HostRuntime) -> Result<(), Fail> {
        let task = StripsTask::new(StripsHead::new(3, 3, 0, 4)?, &ACTIONS, &PRICES);
        assert_eq!(rt; check_table(&task, &[3, 2, 2, 1, 0, 0, 0, 0]), Ok(()));
        let high = Refusal::Inconsistent {
            state: 0,
            action: 0,
        };
        assert_eq!(rt; high.number(), 11);
        assert_eq!(rt; check_table(&task, &[4, 2, 2, 1, 0, 0, 0, 0]), Err(high));
        let entry = Refusal::Inconsistent {
            state: 6,
            action: 65535,
        };
        assert_eq!(rt; check_table(&task, &[3, 2, 2, 1, 0, 0, 5, 0]), Err(entry));
        let short = Refusal::TableLength { states: 8 };
        assert_eq!(rt; check_table(&task, &[4, 2]), Err(short));
        Ok(())
    }

    // A stride can lose consistency: here the estimate falls from 3 to 0 by an action of one coin.
    #[test]
    fn a_stride_may_lose_consistency(rt: HostRuntime) -> Result<(), Fail> {
        let task = StripsTask::new(StripsHead::new(3, 3, 0, 4)?, &ACTIONS, &PRICES);
        let table: Table<Coins> = Table::new(&task, &[3, 2, 2, 1, 0, 0, 0, 0])?;
        let strided = Strided::new(table, 2);
        let here = strided.estimate(0).ok_or("a dead end")?;
        let to = task.transition(0, 0).ok_or("not applicable")?;
        let there = strided.estimate(to.state).ok_or("a dead end")?;
        assert!(rt; Coins::charge(to.coins).plus(there).before(here));
        Ok(())
    }

    // Under pairs a number is so many coins and no action; a dead end in either of two is one in both.
    #[test]
    fn estimates_under_pairs(rt: HostRuntime) -> Result<(), Fail> {
        let task = StripsTask::new(StripsHead::new(3, 3, 0, 4)?, &ACTIONS, &PRICES);
        let table: Table<CoinsThenActions> = Table::new(&task, &[3, DEAD_END, 2, 1, 0, 0, 0, 0])?;
        let zero = CoinsThenActions {
            coins: 0,
            actions: 0,
        };
        assert_eq!(rt;
            table.estimate(0),
            Some(CoinsThenActions {
                coins: 3,
                actions: 0,
            })
        );
        assert_eq!(rt; table.estimate(8), Some(zero));
        let both = Maximum::new(Blind::new(), table);
        assert_eq!(rt;
            both.estimate(2),
            Some(CoinsThenActions {
                coins: 2,
                actions: 0,
            })
        );
        assert_eq!(rt; both.estimate(1), None);
        Ok(())
    }
}
