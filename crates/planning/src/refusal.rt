// Why a call refuses: eighteen numbered cases, each with its place.
ghost use Rattle.std.specs.Prelude.{◌≡◌};
ghost use Rattle.planning.specs.Refusals.{number_of, place_of, number_of_place, sentence_of};

use std::fmt;

#[derive(Clone, Copy, PartialEq, Eq, Debug)]
pub enum Refusal {
    // The sheet is too short or too long, is not of its stated length, or ends inside its head.
    Length { given: usize },
    // The version byte is not 1.
    Version,
    // The kind byte is unknown, or names the other kind.
    Kind,
    // A count in the head is out of range.
    Count { byte: usize },
    // The start or the goal names a fact or value that the sheet does not have.
    StartOrGoal { byte: usize },
    // A record does not fit its length, or bytes follow the last one.
    Frame { byte: usize },
    // An action's price is above 1,000,000.
    Price { byte: usize },
    // An action names a fact, variable or value that the sheet does not have.
    Names { byte: usize },
    // A table, list or buffer of the caller is too short.
    Short { needed: usize },
    // A heuristic's table does not have one entry for each state.
    TableLength { states: u32 },
    // A heuristic's table breaks the rule of consistency.
    Inconsistent { state: u32, action: u16 },
    // A limit or a budget is out of range.
    Range,
    NoState { state: u32 },
    NoAction { action: u16 },
    Inapplicable { action: u16 },
    AtGoal { state: u32 },
    // The marking is not open.
    NotOpen { turns: u32 },
    // The open list's least entry is none of this search.
    Foreign { state: u32 },
}

#[derive(Clone, Copy, PartialEq, Eq, Debug)]
pub enum Place {
    At(u64),
    StateAndAction(u32, u16),
}

impl Place {
    // The place as one number: of a state and an action the state.
    pub fn number(&self) -> u64
        ensures { result ≡ number_of_place self.now }
    {
        match *self {
            Place::At(number) => number,
            Place::StateAndAction(state, _) => state as u64,
        }
    }
}

// Kept: no plainer: no derive gives the numbers and places of cases that hold values; each case is listed once.
impl Refusal {
    pub fn number(&self) -> u8
        ensures { result ≡ number_of self.now }
    {
        match self {
            Refusal::Length { .. } => 1,
            Refusal::Version => 2,
            Refusal::Kind => 3,
            Refusal::Count { .. } => 4,
            Refusal::StartOrGoal { .. } => 5,
            Refusal::Frame { .. } => 6,
            Refusal::Price { .. } => 7,
            Refusal::Names { .. } => 8,
            Refusal::Short { .. } => 9,
            Refusal::TableLength { .. } => 10,
            Refusal::Inconsistent { .. } => 11,
            Refusal::Range => 12,
            Refusal::NoState { .. } => 13,
            Refusal::NoAction { .. } => 14,
            Refusal::Inapplicable { .. } => 15,
            Refusal::AtGoal { .. } => 16,
            Refusal::NotOpen { .. } => 17,
            Refusal::Foreign { .. } => 18,
        }
    }

    pub fn place(&self) -> Place
        ensures { result ≡ place_of self.now }
    {
        match *self {
            Refusal::Length { given } => Place::At(given as u64),
            Refusal::Version | Refusal::Range => Place::At(0),
            Refusal::Kind => Place::At(5),
            Refusal::Count { byte }
            | Refusal::StartOrGoal { byte }
            | Refusal::Frame { byte }
            | Refusal::Price { byte }
            | Refusal::Names { byte } => Place::At(byte as u64),
            Refusal::Short { needed } => Place::At(needed as u64),
            Refusal::TableLength { states } => Place::At(states as u64),
            Refusal::Inconsistent { state, action } => Place::StateAndAction(state, action),
            Refusal::NoState { state } | Refusal::AtGoal { state } | Refusal::Foreign { state } =>
                Place::At(state as u64),
            Refusal::NoAction { action } | Refusal::Inapplicable { action } => {
                Place::At(action as u64)
            }
            Refusal::NotOpen { turns } => Place::At(turns as u64),
        }
    }
}

// Kept: no plainer: what a place counts differs from case to case, and no derive prints it.
impl Refusal {
    // What the place counts or names.
    fn unit(&self) -> &'static str {
        match self {
            Refusal::Length { .. } => "length",
            Refusal::Short { .. } | Refusal::TableLength { .. } => "size",
            Refusal::Range => "place",
            Refusal::NoState { .. } | Refusal::AtGoal { .. } | Refusal::Foreign { .. } => "state",
            Refusal::NoAction { .. } | Refusal::Inapplicable { .. } => "action",
            Refusal::NotOpen { .. } => "turn",
            _ => "byte",
        }
    }
}

// What is wrong, in words that help whoever made the input, by the number of the refusal.
// Kept: the C interface: the library for C explains a refusal by its number alone.
pub fn sentence(number: u8) -> &'static str
    ensures { result.now ≡ sentence_of number }
{
    match number {
        1 => "a sheet has 9 to 65536 bytes, as many as bytes 1 to 4 say, and holds its whole head",
        2 => "the version, byte 0, has to be 1",
        3 => "the kind, byte 5, is unknown or not the one that is read here",
        4 => "this count is out of range, or there would be more than 65536 states",
        5 => "the start or the goal names a fact or value that the sheet does not have",
        6 =>
            "the lengths of this record do not fit, its name has not 1 to 32 bytes, or bytes follow the last record",
        7 => "the price of the action in this record is above 1000000",
        8 =>
            "this record names a fact, variable or value that the sheet does not have, or its variables do not rise",
        9 => "a table, list or buffer is shorter than this",
        10 => "the table of estimates has to have one entry for each state",
        11 => "the estimate falls by more than the action costs, or is not zero at a goal",
        12 => "the limit or the budget is out of range",
        13 => "there is no such state",
        14 => "there is no such action",
        15 => "the action is not applicable in the state",
        16 => "the state is a goal",
        17 => "the marking is not open",
        18 => "the open list holds what this marking did not put there",
        _ => "",
    }
}

impl fmt::Display for Refusal {
    fn fmt<W: fmt::Write>(&self, f: &mut fmt::Formatter<W>) -> fmt::Result {
        let number = self.number();
        let unit = self.unit();
        let reason = sentence(number);
        match self.place() {
            Place::At(place) => write!(f, "refused {number} at {unit} {place}: {reason}"),
            Place::StateAndAction(state, action) => write!(
                f,
                "refused {number} at state {state}, action {action}: {reason}"
            ),
        }
    }
}
