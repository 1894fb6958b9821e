#![tactic(auto)]

// Sheets byte by byte: which are accepted, and where the others are refused.
#[cfg(test)]
mod tests {
    use planning::refusal::{Place, Refusal};
    use planning::task::{Task, Transition};
    use sheets::head::StripsHead;
    use sheets::reading::{check, read};
    use sheets::record::{SheetRecord, record};
    use sheets::strips::{Facts, StripsAction};
    use sheets::strips_task::StripsTask;
    use std::alloc::{AllocError, Global};
    use std::test::Fail;

    // Three facts, the third the goal; seven actions, whose records begin at 17, 47, 77, 112, 145, 177 and 202.
    const KEY: [u8; 245] = [
        1, 0, 0, 0, 245, 1, 3, 0, 7, 0, 0, 0, 0, 0, 0, 0, 4, 0, 28, 0, 0, 0, 1, 0, 0, 0, 0, 0, 0,
        0, 1, 0, 0, 0, 0, 116, 97, 107, 101, 32, 116, 104, 101, 32, 107, 101, 121, 0, 28, 0, 0, 0,
        1, 0, 0, 0, 0, 0, 0, 0, 2, 0, 0, 0, 0, 116, 97, 107, 101, 32, 116, 104, 101, 32, 109, 97,
        112, 0, 33, 0, 0, 0, 1, 0, 0, 0, 1, 0, 0, 0, 4, 0, 0, 0, 0, 111, 112, 101, 110, 32, 119,
        105, 116, 104, 32, 116, 104, 101, 32, 107, 101, 121, 0, 31, 0, 0, 0, 1, 0, 0, 0, 2, 0, 0,
        0, 4, 0, 0, 0, 0, 102, 105, 110, 100, 32, 98, 121, 32, 116, 104, 101, 32, 109, 97, 112, 0,
        30, 0, 0, 0, 3, 0, 0, 0, 0, 0, 0, 0, 4, 0, 0, 0, 0, 98, 114, 101, 97, 107, 32, 116, 104,
        101, 32, 100, 111, 111, 114, 0, 23, 0, 0, 0, 0, 0, 0, 0, 0, 0, 0, 0, 0, 0, 0, 0, 0, 119,
        97, 105, 116, 226, 128, 166, 0, 41, 0, 0, 0, 1, 0, 0, 0, 0, 0, 0, 0, 1, 0, 0, 0, 1, 112,
        117, 116, 32, 98, 97, 99, 107, 32, 97, 110, 100, 32, 116, 97, 107, 101, 32, 116, 104, 101,
        32, 107, 101, 121,
    ];

    // One fact, which is the goal; one action, which deletes it at no cost.
    const LOST: [u8; 36] = [
        1, 0, 0, 0, 36, 1, 1, 0, 1, 0, 0, 0, 0, 0, 0, 0, 1, 0, 17, 0, 0, 0, 0, 0, 0, 0, 0, 0, 0, 0,
        0, 0, 0, 0, 1, 119,
    ];

    // Three facts, the third the goal, which is added where both others hold; three actions of price 1.
    const BOTH: [u8; 74] = [
        1, 0, 0, 0, 74, 1, 3, 0, 3, 0, 0, 0, 0, 0, 0, 0, 4, 0, 17, 0, 0, 0, 1, 0, 0, 0, 0, 0, 0, 0,
        1, 0, 0, 0, 0, 97, 0, 17, 0, 0, 0, 1, 0, 0, 0, 0, 0, 0, 0, 2, 0, 0, 0, 0, 98, 0, 17, 0, 0,
        0, 1, 0, 0, 0, 3, 0, 0, 0, 4, 0, 0, 0, 0, 99,
    ];

    // The number and the place that a sheet is refused with, or zeros where it is accepted.
    // Kept: no plainer: a row of a table of cases has a number and a place, zeros for none.
    fn verdict(sheet: &[u8]) -> (u8, u64) {
        match check::<Facts>(sheet) {
            Ok(_) => (0, 0),
            Err(refusal) => (refusal.number(), refusal.place().number()),
        }
    }

    // Kept: no plainer: two crates of tests share these few lines, and a crate for them would be longer.
    fn with_byte(heap: Global, sheet: &[u8], at: usize, byte: u8) -> Result<Vec<u8>, AllocError> {
        let mut copy = sheet.to_vec(heap)?;
        if let Some(b) = copy.get_mut(at) {
            *b = byte;
        }
        Ok(copy)
    }

    // One byte changed: where, to what, and the verdict.
    #[test]
    fn one_byte_changed(rt: HostRuntime) -> Result<(), Fail> {
        let cases: [(usize, u8, u8, u64); 29] = [
            (0, 0, 2, 0),
            (0, 2, 2, 0),
            (4, 244, 1, 245),
            (4, 246, 1, 245),
            (1, 1, 1, 245),
            (5, 0, 3, 5),
            (5, 2, 3, 5),
            (5, 255, 3, 5),
            (6, 0, 4, 6),
            (6, 17, 4, 6),
            (6, 16, 0, 0),
            (6, 2, 5, 13),
            (7, 2, 4, 7),
            (8, 0, 4, 7),
            (8, 6, 6, 202),
            (8, 8, 6, 245),
            (12, 7, 0, 0),
            (12, 8, 5, 9),
            (16, 8, 5, 13),
            (9, 128, 5, 9),
            (18, 16, 6, 17),
            (17, 1, 6, 17),
            (203, 40, 6, 244),
            (19, 1, 7, 17),
            (205, 16, 7, 202),
            (26, 8, 8, 17),
            (30, 8, 8, 17),
            (34, 8, 8, 17),
            (219, 8, 8, 202),
        ];
        for (at, byte, number, place) in cases {
            let sheet = with_byte(rt.alloc(), &KEY, at, byte)?;
            assert_eq!(rt; verdict(&sheet), (number, place));
        }
        Ok(())
    }

    // A sheet cut short or grown is not of its stated length.
    #[test]
    fn every_length(rt: HostRuntime) -> Result<(), Fail> {
        for n in 0usize..245 {
            assert_eq!(rt; verdict(&KEY[0..n]), (1, n as u64));
        }
        let headless = [1, 0, 0, 0, 16, 1, 1, 0, 1, 0, 0, 0, 0, 0, 0, 0];
        assert_eq!(rt; verdict(&headless), (1, 16));
        let mut longer = KEY.to_vec(rt.alloc())?;
        longer.push(0)?;
        assert_eq!(rt; verdict(&longer), (1, 246));
        assert_eq!(rt; verdict(&KEY), (0, 0));
        assert_eq!(rt; verdict(&BOTH), (0, 0));
        assert_eq!(rt; verdict(&LOST), (0, 0));
        Ok(())
    }

    // A fact sheet of a length of its own: a head with so many facts and actions, then records of one action
    // with a name of so many bytes, until it is full; the rest is zeros.
    fn built(
        heap: Global,
        total: u32,
        facts: u8,
        actions: u16,
        records: u16,
        name: u8,
    ) -> Result<Vec<u8>, AllocError> {
        let mut sheet = Vec::new(heap);
        sheet.push(1)?;
        sheet.extend_from_slice(&total.to_be_bytes())?;
        sheet.extend_from_slice(&[1, facts])?;
        sheet.extend_from_slice(&actions.to_be_bytes())?;
        sheet.extend_from_slice(&[0; 8])?;
        for _ in 0..records {
            sheet.extend_from_slice(&[0, 16u8.saturating_add(name)])?;
            sheet.extend_from_slice(&[0; 16])?;
            sheet.resize(sheet.len().saturating_add(name as usize), 110)?;
        }
        sheet.resize(sheet.len().max(total as usize), 0)?;
        Ok(sheet)
    }

    // The limits on lengths, facts, actions and names, at their edges: the length, the facts, the actions told,
    // the records there, the bytes of a name, and the verdict.
    #[test]
    fn limits(rt: HostRuntime) -> Result<(), Fail> {
        let cases: [(u32, u8, u16, u16, u8, u8, u64); 12] = [
            (17, 1, 1, 0, 0, 6, 17),
            (36, 16, 1, 1, 1, 0, 0),
            (36, 17, 1, 1, 1, 4, 6),
            (67, 1, 1, 1, 32, 0, 0),
            (68, 1, 1, 1, 33, 6, 17),
            (35, 1, 1, 1, 0, 6, 17),
            (37, 1, 1, 1, 1, 6, 36),
            (9745, 1, 512, 512, 1, 0, 0),
            (9764, 1, 513, 513, 1, 4, 7),
            (65536, 1, 1, 1, 1, 6, 36),
            (65536, 1, 512, 512, 1, 6, 9745),
            (65537, 1, 1, 1, 1, 1, 65537),
        ];
        for (total, facts, actions, records, name, number, place) in cases {
            let sheet = built(rt.alloc(), total, facts, actions, records, name)?;
            assert_eq!(rt; verdict(&sheet), (number, place));
        }
        Ok(())
    }

    const NONE: StripsAction = StripsAction {
        preconditions: 9,
        adds: 9,
        deletes: 9,
    };

    // Tables that are too short are refused with the size needed, and nothing is written; else the first entries are.
    #[test]
    fn tables_are_filled_or_left(rt: HostRuntime) -> Result<(), Fail> {
        let mut actions = [NONE; 8];
        let mut prices = [9; 8];
        assert_eq!(rt;
            read::<Facts>(&KEY, &mut actions[0..6], &mut prices).is_ok(),
            false
        );
        assert_eq!(rt;
            read::<Facts>(&KEY, &mut actions, &mut prices[0..6]).is_ok(),
            false
        );
        match read::<Facts>(&KEY, &mut [NONE; 7], &mut [9; 6]) {
            Ok(_) => return Err(Fail::new("accepted")),
            Err(refusal) => assert_eq!(rt; (refusal.number(), refusal.place()), (9, Place::At(7))),
        }
        assert_eq!(rt; prices, [9; 8]);
        assert!(rt; actions[0].adds == 9);
        assert!(rt; read::<Facts>(&KEY, &mut actions, &mut prices).is_ok());
        assert_eq!(rt; prices, [1, 1, 1, 1, 3, 0, 1, 9]);
        assert!(rt;
            actions[2].preconditions == 1
                && actions[2].adds == 4
                && actions[6].deletes == 1
                && actions[7].adds == 9
        );
        Ok(())
    }

    // A record by its number: its place, and the place of its name.
    #[test]
    fn records_by_number(rt: HostRuntime) -> Result<(), Fail> {
        let places: [(u16, usize, usize); 3] = [(0, 17, 12), (3, 112, 15), (6, 202, 25)];
        for (number, place, long) in places {
            match record(&KEY, number) {
                Ok(SheetRecord::Strips(r)) => assert!(rt;
                    r.place == place && r.name.place == place + 18 && r.name.bytes.len() == long
                ),
                _ => return Err(Fail::new("no such record")),
            }
        }
        match record(&KEY, 7) {
            Ok(_) => Err(Fail::new("accepted")),
            Err(refusal) => {
                assert_eq!(rt; (refusal.number(), refusal.place()), (14, Place::At(7)));
                Ok(())
            },
        }
    }

    // The task of other tables: prices are capped, and what names an absent fact or lies past a table never applies.
    #[test]
    fn tasks_over_other_tables(rt: HostRuntime) -> Result<(), Fail> {
        let actions = [
            StripsAction {
                preconditions: 1,
                adds: 2,
                deletes: 3,
            },
            StripsAction {
                preconditions: 0,
                adds: 4,
                deletes: 0,
            },
            StripsAction {
                preconditions: 2,
                adds: 1,
                deletes: 0,
            },
        ];
        let task = StripsTask::new(
            StripsHead::new(2, 4, 0, 2)?,
            &actions,
            &[2000000, 1, 1000000, 0],
        );
        assert_eq!(rt;
            task.transition(1, 0),
            Some(Transition {
                state: 2,
                coins: 1000000,
            })
        );
        assert_eq!(rt;
            task.transition(3, 2),
            Some(Transition {
                state: 3,
                coins: 1000000,
            })
        );
        assert_eq!(rt; task.transition(0, 0), None);
        assert_eq!(rt; task.transition(1, 1), None);
        assert_eq!(rt; task.transition(1, 3), None);
        assert_eq!(rt; task.transition(4, 2), None);
        assert!(rt; task.is_goal(3) && task.is_goal(2) && !task.is_goal(1) && !task.is_goal(6));
        Ok(())
    }
}
