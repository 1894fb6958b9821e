#![tactic(auto)]

// Sheets of dials byte by byte, and a task of dials beside the same task of facts.
#[cfg(test)]
mod tests {
    use planning::task::{Task, Transition};
    use sheets::finite_domain::{FiniteDomainAction, Variables};
    use sheets::finite_domain_task::FiniteDomainTask;
    use sheets::head::{FiniteDomainHead, StripsHead};
    use sheets::reading::{check, read};
    use sheets::record::{SheetRecord, record};
    use sheets::strips::StripsAction;
    use sheets::strips_task::StripsTask;
    use std::alloc::{AllocError, Global};
    use std::test::Fail;

    // A switch of two values and a lamp of three; five actions, whose records begin at 15, 36, 59, 85 and 111.
    const LAMP: [u8; 131] = [
        1, 0, 0, 0, 131, 2, 2, 0, 5, 2, 3, 0, 0, 255, 2, 0, 19, 0, 0, 0, 1, 1, 0, 0, 1, 0, 1, 115,
        119, 105, 116, 99, 104, 32, 111, 110, 0, 21, 0, 0, 0, 1, 2, 0, 1, 1, 0, 1, 1, 1, 100, 105,
        109, 32, 108, 105, 103, 104, 116, 0, 24, 0, 0, 0, 1, 2, 0, 1, 1, 1, 1, 1, 2, 98, 114, 105,
        103, 104, 116, 32, 108, 105, 103, 104, 116, 0, 24, 0, 0, 0, 2, 1, 0, 1, 1, 1, 2, 98, 114,
        105, 103, 104, 116, 32, 97, 116, 32, 111, 110, 99, 101, 0, 18, 0, 0, 0, 9, 0, 1, 1, 2, 97,
        32, 110, 101, 119, 32, 108, 97, 109, 112,
    ];

    // One variable of two values, which is to become 1; one action, `n`, that sets it at price 1.
    const SWITCH: [u8; 25] = [
        1, 0, 0, 0, 25, 2, 1, 0, 1, 2, 0, 1, 0, 11, 0, 0, 0, 1, 1, 0, 0, 1, 0, 1, 110,
    ];

    // The number and the place that a sheet is refused with, or zeros where it is accepted.
    // Kept: no plainer: a row of a table of cases has a number and a place, zeros for none.
    fn verdict(sheet: &[u8]) -> (u8, u64) {
        match check::<Variables>(sheet) {
            Ok(_) => (0, 0),
            Err(refusal) => (refusal.number(), refusal.place().number()),
        }
    }

    // Kept: no plainer: two crates of tests share these few lines, and a crate for them would be longer.
    fn with_byte(heap: Global, sheet: &[u8], at: usize, byte: u8) -> Result<Vec<u8>, AllocError> {
        let mut copy = sheet.to_vec(heap)?;
        if let Some(b) = copy.get_mut(at) {
            *b = byte;
        }
        Ok(copy)
    }

    // One byte changed: where, to what, and the verdict.
    #[test]
    fn one_byte_changed(rt: HostRuntime) -> Result<(), Fail> {
        let cases: [(usize, u8, u8, u64); 42] = [
            (0, 2, 2, 0),
            (4, 130, 1, 131),
            (5, 1, 3, 5),
            (5, 3, 3, 5),
            (6, 0, 4, 6),
            (6, 17, 4, 6),
            (7, 2, 4, 7),
            (8, 0, 4, 7),
            (9, 1, 4, 9),
            (9, 17, 4, 9),
            (9, 16, 0, 0),
            (10, 1, 4, 10),
            (10, 17, 4, 10),
            (11, 2, 5, 11),
            (11, 1, 0, 0),
            (12, 3, 5, 12),
            (13, 2, 5, 13),
            (13, 1, 0, 0),
            (14, 3, 5, 14),
            (14, 254, 5, 14),
            (14, 255, 0, 0),
            (16, 10, 6, 15),
            (16, 43, 6, 15),
            (15, 1, 6, 15),
            (21, 3, 6, 15),
            (24, 3, 6, 15),
            (17, 1, 7, 15),
            (113, 1, 7, 111),
            (22, 2, 8, 15),
            (23, 2, 8, 15),
            (25, 2, 8, 15),
            (26, 2, 8, 15),
            (26, 0, 0, 0),
            (45, 0, 8, 36),
            (43, 1, 8, 36),
            (119, 2, 8, 111),
            (120, 3, 8, 111),
            (120, 0, 0, 0),
            (8, 4, 6, 111),
            (8, 6, 6, 131),
            (3, 1, 1, 131),
            (130, 0, 0, 0),
        ];
        for (at, byte, number, place) in cases {
            let sheet = with_byte(rt.alloc(), &LAMP, at, byte)?;
            assert_eq!(rt; verdict(&sheet), (number, place));
        }
        Ok(())
    }

    // A sheet of one action that needs and does nothing, with so many values for each variable.
    fn built(heap: Global, counts: &[u8]) -> Result<Vec<u8>, AllocError> {
        let mut sheet = Vec::new(heap);
        let variables = (counts.len() % 256) as u8;
        sheet.extend_from_slice(&[
            1,
            0,
            0,
            0,
            18u8.saturating_add(variables.saturating_mul(3)),
            2,
            variables,
            0,
            1,
        ])?;
        sheet.extend_from_slice(counts)?;
        sheet.resize(sheet.len().saturating_add(counts.len()), 1)?;
        sheet.resize(sheet.len().saturating_add(counts.len()), 255)?;
        sheet.extend_from_slice(&[0, 7, 0, 0, 0, 0, 0, 0, 110])?;
        Ok(sheet)
    }

    // One variable of sixteen values, sixteen of two, and one value too many.
    #[test]
    fn numbers_of_states(rt: HostRuntime) -> Result<(), Fail> {
        assert_eq!(rt; verdict(&SWITCH), (0, 0));
        assert_eq!(rt; verdict(&built(rt.alloc(), &[16])?), (0, 0));
        assert_eq!(rt; verdict(&built(rt.alloc(), &[2; 16])?), (0, 0));
        assert_eq!(rt; verdict(&built(rt.alloc(), &[16; 4])?), (0, 0));
        let mut counts = [2; 16];
        counts[15] = 3;
        assert_eq!(rt; verdict(&built(rt.alloc(), &counts)?), (4, 6));
        assert_eq!(rt; verdict(&built(rt.alloc(), &[17, 16, 16, 16])?), (4, 9));
        Ok(())
    }

    // Tables that are too short are refused and left; else they hold the sheet. Records have their parts and places.
    #[test]
    fn tables_and_records(rt: HostRuntime) -> Result<(), Fail> {
        let none = FiniteDomainAction {
            preconditions: [9; 16],
            effects: [9; 16],
        };
        let mut actions = [none; 6];
        let mut prices = [7; 6];
        assert!(rt; read::<Variables>(&LAMP, &mut actions[0..4], &mut prices).is_err());
        assert_eq!(rt; prices, [7; 6]);
        assert!(rt; read::<Variables>(&LAMP, &mut actions, &mut prices).is_ok());
        assert_eq!(rt; prices, [1, 1, 1, 2, 9, 7]);
        match record(&LAMP, 1) {
            Ok(SheetRecord::FiniteDomain(r)) => {
                assert!(rt;
                    r.place == 36
                        && r.preconditions.place == 43
                        && r.effects.place == 48
                        && r.name.place == 50
                        && r.name.bytes.len() == 9
                );
                Ok(())
            },
            _ => Err(Fail::new("no such record")),
        }
    }

    const NAMED: [[u8; 16]; 3] = [
        [
            1, 255, 255, 255, 255, 255, 255, 255, 255, 255, 255, 255, 255, 255, 255, 255,
        ],
        [
            255, 1, 255, 255, 255, 255, 255, 255, 255, 255, 255, 255, 255, 255, 255, 255,
        ],
        [
            255, 255, 1, 255, 255, 255, 255, 255, 255, 255, 255, 255, 255, 255, 255, 255,
        ],
    ];

    const ANY: [u8; 16] = [255; 16];

    // The same task of three facts and of three variables of two values: state by state, action by action.
    #[test]
    fn the_same_task_twice(rt: HostRuntime) -> Result<(), Fail> {
        let facts = [
            StripsAction {
                preconditions: 0,
                adds: 1,
                deletes: 0,
            },
            StripsAction {
                preconditions: 1,
                adds: 4,
                deletes: 0,
            },
            StripsAction {
                preconditions: 2,
                adds: 4,
                deletes: 0,
            },
            StripsAction {
                preconditions: 0,
                adds: 1,
                deletes: 1,
            },
        ];
        let values = [
            FiniteDomainAction {
                preconditions: ANY,
                effects: NAMED[0],
            },
            FiniteDomainAction {
                preconditions: NAMED[0],
                effects: NAMED[2],
            },
            FiniteDomainAction {
                preconditions: NAMED[1],
                effects: NAMED[2],
            },
            FiniteDomainAction {
                preconditions: ANY,
                effects: NAMED[0],
            },
        ];
        let prices = [1, 1, 1, 3];
        let strips = StripsTask::new(StripsHead::new(3, 4, 0, 4)?, &facts, &prices);
        let dials = FiniteDomainTask::new(
            FiniteDomainHead::new(3, 4, [2; 16], [0; 16], NAMED[2])?,
            &values,
            &prices,
        );
        // An action that names an absent value or variable never applies, and a price is capped.
        let absent = [
            FiniteDomainAction {
                preconditions: ANY,
                effects: [2; 16],
            },
            FiniteDomainAction {
                preconditions: [1; 16],
                effects: ANY,
            },
            FiniteDomainAction {
                preconditions: NAMED[0],
                effects: ANY,
            },
        ];
        let other = FiniteDomainTask::new(
            FiniteDomainHead::new(3, 4, [2; 16], [0; 16], NAMED[2])?,
            &absent,
            &[1, 1, 2000000, 1],
        );
        assert_eq!(rt; other.transition(7, 0), None);
        assert_eq!(rt; other.transition(7, 1), None);
        assert_eq!(rt;
            other.transition(7, 2),
            Some(Transition {
                state: 7,
                coins: 1000000,
            })
        );
        assert_eq!(rt; other.transition(7, 3), None);
        for state in 0u32..9 {
            for action in 0u16..5 {
                assert_eq!(rt;
                    strips.transition(state, action),
                    dials.transition(state, action)
                );
            }
            assert_eq!(rt; strips.is_goal(state), dials.is_goal(state));
        }
        Ok(())
    }
}
