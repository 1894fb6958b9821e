#![tactic(auto)]

// Questions and their lines, as the marking program puts them together.
#[cfg(test)]
mod tests {
    use answers::answer;
    use costs::coins::Coins;
    use open_lists::heap::Place;
    use planning::cost::Record;
    use planning::refusal::{Place as RefusalPlace, Refusal};
    use planning::status::Status;
    use planning::task::Task;
    use questions::input::split;
    use questions::line::{write_line, write_refused};
    use sheets::kind::SheetKind;
    use sheets::reading::read;
    use sheets::strips::Facts;
    use sheets::strips_task::StripsTask;
    use std::test::Fail;

    // A sheet of one fact, which is the goal and which its one action deletes, and two questions about it.
    const INPUT: [u8; 50] = [
        1, 0, 0, 0, 36, 1, 1, 0, 1, 0, 0, 0, 0, 0, 0, 0, 1, 0, 17, 0, 0, 0, 0, 0, 0, 0, 0, 0, 0, 0,
        0, 0, 0, 0, 1, 119, 0, 2, 0, 0, 0, 0, 0, 0, 0, 0, 0, 1, 0, 0,
    ];

    // Whether the first bytes of a buffer are these.
    fn begins(buffer: &[u8], written: Result<usize, Refusal>, line: &[u8]) -> bool {
        written.is_ok_and(|n| buffer.get(..n) == Some(line))
    }

    fn answered<T: Task>(task: &T, state: u32, action: u16) -> Result<Status, Refusal> {
        let mut table = [Record::<Coins>::unknown(); 2];
        let mut places = [Place::<Coins>::blank(); 2];
        answer(task, &mut places, &mut table, state, action)
    }

    // The two questions, from the input to the lines.
    #[test]
    fn from_input_to_lines(rt: HostRuntime) -> Result<(), Fail> {
        let asked = split(&INPUT)?;
        let mut actions = [Facts::blank(); 1];
        let mut prices = [0; 1];
        let head = read::<Facts>(asked.sheet, &mut actions, &mut prices)?;
        let task = StripsTask::new(head, &actions, &prices);
        let mut buffer = [0; 32];
        let first = asked.question(0).ok_or("no question")?;
        let written = write_line(
            &mut buffer,
            first.state,
            first.action,
            answered(&task, first.state, first.action),
        );
        assert!(rt; begins(&buffer, written, b"0 0 stuck\n"));
        let second = asked.question(1).ok_or("no question")?;
        let written = write_line(
            &mut buffer,
            second.state,
            second.action,
            answered(&task, second.state, second.action),
        );
        assert!(rt; begins(&buffer, written, b"1 0 refused 16\n"));
        assert!(rt; second.place == 44 && asked.question(2).is_none());
        Ok(())
    }

    // Every input that is cut short is refused with its length.
    #[test]
    fn inputs_cut_short(rt: HostRuntime) -> Result<(), Fail> {
        for n in 0usize..50 {
            match split(&INPUT[0..n]) {
                Ok(_) => return Err(Fail::new("accepted")),
                Err(refusal) => assert_eq!(rt;
                    (refusal.number(), refusal.place()),
                    (1, RefusalPlace::At(n as u64))
                ),
            }
        }
        Ok(())
    }

    // The shortest and the longest line, and a buffer that is too short.
    #[test]
    fn lines(rt: HostRuntime) -> Result<(), Fail> {
        let mut buffer = [0; 32];
        let written = write_line(
            &mut buffer,
            4294967295,
            65535,
            Err(Refusal::Foreign { state: 7 }),
        );
        assert!(rt; begins(&buffer, written, b"4294967295 65535 refused 18\n"));
        let written = write_line(&mut buffer, 10, 9, Ok(Status::Best));
        assert!(rt; begins(&buffer, written, b"10 9 best\n"));
        let written = write_refused(&mut buffer, Refusal::Version);
        assert!(rt; begins(&buffer, written, b"refused 2\n"));
        let mut short = [7; 31];
        match write_line(&mut short, 0, 0, Ok(Status::Stuck)) {
            Ok(_) => Err(Fail::new("accepted")),
            Err(refusal) => {
                assert_eq!(rt;
                    (refusal.number(), refusal.place()),
                    (9, RefusalPlace::At(32))
                );
                Ok(())
            },
        }
    }
}
