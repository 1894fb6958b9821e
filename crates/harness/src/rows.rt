// What crosses to the other language: the parts that are chosen, a call, and what it answered.
// Kept: the C interface: parts, calls, refusals and statuses cross as numbers.
use planning::refusal::{Place, Refusal};
use planning::status::Status;

// Which parts a marking is made with, and how long its table and its list are.
#[repr(C)]
#[derive(Clone, Copy)]
pub struct Setup {
    pub cost: u8,
    pub heuristic: u8,
    pub list: u8,
    pub check: u8,
    pub stride: u32,
    pub records: u32,
    pub room: u32,
}

// One call and its numbers.
#[repr(C)]
#[derive(Clone, Copy)]
pub struct Step {
    pub call: u8,
    pub tagged: u8,
    pub action: u16,
    pub state: u32,
    pub number: u32,
}

// What a call answered: the number of a refusal or 0, the status, the turns, and the place of a refusal.
#[repr(C)]
#[derive(Clone, Copy, Default)]
pub struct Row {
    pub number: u8,
    pub status: u8,
    pub action: u16,
    pub turns: u32,
    pub place: u64,
}

impl From<(Status, u32)> for Row {
    fn from(told: (Status, u32)) -> Row {
        let (status, turns) = told;
        Row {
            status: status as u8,
            turns,
            ..Row::default()
        }
    }
}

impl From<Refusal> for Row {
    fn from(refusal: Refusal) -> Row {
        let (place, action) = match refusal.place() {
            Place::At(place) => (place, 0),
            Place::StateAndAction(state, action) => (state as u64, action),
        };
        Row {
            number: refusal.number(),
            action,
            place,
            ..Row::default()
        }
    }
}

impl From<Result<(Status, u32), Refusal>> for Row {
    fn from(answer: Result<(Status, u32), Refusal>) -> Row {
        match answer {
            Ok(told) => Row::from(told),
            Err(refusal) => Row::from(refusal),
        }
    }
}

impl From<bool> for Row {
    fn from(answer: bool) -> Row {
        Row {
            status: answer as u8,
            ..Row::default()
        }
    }
}
