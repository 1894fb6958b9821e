// Sheets of variables with several values: finite-domain tasks.
ghost use Rattle.std.specs.Prelude.{◌≡◌, ℕ, ◌+◌, ◌*◌, ◌≤◌, min, true, ◌&&◌, ◌||◌, ◌<◌, ltb, [], ◌∷◌, length, take, if◌then◌else◌, Some, None, ◌==◌, nat_le, nat_lt, slice_index, slice_index_or};
ghost use Rattle.planning.specs.Checks.{first_failing};
ghost use Rattle.planning.specs.Outcomes.{Answers};
ghost use Rattle.sheet_layout.specs.FiniteDomain.{product, counts_checks, values_checks, finite_domain_head, end_of_list, list_fits, present_pairs, present_list, read_list, read_assignments};
ghost use Rattle.sheet_layout.specs.Numbers.{byte_at};
ghost use Rattle.sheets.specs.Described.{finite_domain_tasks_laws};
ghost use Rattle.sheets.specs.FiniteDomainReading.{values_named, does, finite_domain_reading};
ghost use Rattle.sheets.specs.FiniteDomainTasks.{finite_domain_tasks};
ghost use Rattle.sheets.specs.Laws.{finite_domain_reading_laws};

use crate::bytes::byte_at;
use crate::frame::check_sizes;
use crate::head::FiniteDomainHead;
use crate::kind::{Kind, Opening, SheetKind};
use planning::refusal::Refusal;
use planning::task::Transition;

// The number that stands for any value, or for a variable that is not named.
pub const ANY: u8 = 255;

// What an action needs, and what it sets: values by variable, ANY for the variables that it does not name.
// Kept: no plainer: tables and heads are public, and callers write the sheets' own 255 for a variable that is not named.
#[derive(Clone, Copy)]
pub struct FiniteDomainAction {
    pub preconditions: [u8; 16],
    pub effects: [u8; 16],
}

// The numbers of values of the variables, which stand from byte 9 on.
fn check_counts(counts: &[u8]) -> Result<(), Refusal>
    ensures { Answers (first_failing (counts_checks counts.now 9)) (λ _. Unit {0}) result }
{
    match counts.iter().position(|count| !(2..=16).contains(count)) {
        Some(i) => Err(Refusal::Count { byte: 9 + i }),
        None => Ok(()),
    }
}

// Whether a value is one of a variable's, or stands for any where that is allowed.
// Kept: no plainer: a closure for the test needs its F.pre and F.post at every value, where one flag chooses between two
// definitions.
pub(crate) fn is_value(value: u8, count: u8, any: bool) -> bool
    ensures { result ≡ (nat_lt value count || (any && value == 255)) }
{
    value < count || any && value == ANY
}

// The values of the variables, which stand from a byte on: each one of its variable's, or any where that is allowed.
pub(crate) fn check_values(
    counts: &[u8],
    values: &[u8],
    any: bool,
    first: usize,
) -> Result<(), Refusal>
    requires { first ≤ 41 }
    ensures { Answers (first_failing (values_checks (λ v n. nat_lt v n || (any && v == 255)) counts.now values.now first)) (λ _. Unit {0}) result }
{
    let mut pairs = counts.iter().zip(values);
    match pairs.position(|(count, value)| !is_value(*value, *count, any)) {
        Some(i) => Err(Refusal::StartOrGoal { byte: first + i }),
        None => Ok(()),
    }
}

// The number of states, or 65,537 where there are more.
fn count_states(counts: &[u8]) -> u32
    ensures { result ≡ min (product counts.now) 65537 }
{
    // Kept: no plainer: a fold would multiply with saturation, since its closure does not know that the product so far
    // stops at 65,537.
    let mut states = 1;
    for count in counts {
        states = (states * u32::from(*count)).min(65537);
    }
    states
}

impl FiniteDomainHead {
    // Of each list only the first `variables` values count.
    pub fn new(
        variables: u8,
        actions: u16,
        counts: [u8; 16],
        start: [u8; 16],
        goal: [u8; 16],
    ) -> Result<FiniteDomainHead, Refusal>
        ensures { Answers (first_failing (finite_domain_head variables actions (take variables counts) (take variables start) (take variables goal))) (λ h. (h.variables ≡ variables) × (h.actions ≡ actions) × (h.counts ≡ counts) × (h.start ≡ start) × (h.goal ≡ goal)) result }
    {
        check_sizes(variables, actions)?;
        let d = variables as usize;
        check_counts(&counts[..d])?;
        let states = count_states(&counts[..d]);
        if states > 65536 {
            return Err(Refusal::Count { byte: 6 });
        }
        check_values(&counts[..d], &start[..d], false, 9 + d)?;
        check_values(&counts[..d], &goal[..d], true, 9 + 2 * d)?;
        Ok(FiniteDomainHead {
            variables,
            actions,
            states,
            counts,
            start,
            goal,
        })
    }

    // The number of values of each variable.
    pub(crate) fn counts(&self) -> &[u8]
        ensures { result.now ≡ take self.now.variables self.now.counts }
    {
        &self.counts[..self.variables as usize]
    }
}

// The pairs of a variable and a value that stand from a place on.
// Kept: no plainer: their count is the byte before, which the caller has read for the list's end.
fn pairs_at(sheet: &[u8], count: u8, first: usize) -> &[[u8; 2]]
    requires { first + 2 * count ≤ length sheet.now }
    ensures long { length result.now ≡ count }
    ensures each { (k : ℕ) → k < count → slice_index_or result.now k [] ≡ byte_at sheet.now (first + 2 * k) ∷ byte_at sheet.now (first + 2 * k + 1) ∷ [] }
{
    let (pairs, _) = sheet[first..first + 2 * count as usize].as_chunks();
    pairs
}

// Whether a variable is there and at least `least`, and the value is one of its values.
fn pair_present(sheet: &[u8], variable: u8, value: u8, least: u8) -> bool
    ensures { result ≡ (nat_le least variable && (nat_lt variable (byte_at sheet.now 6) && nat_lt value (byte_at sheet.now (9 + variable)))) }
{
    least <= variable
        && variable < byte_at(sheet, 6)
        && value < byte_at(sheet, 9 + variable as usize)
}

// Whether pairs do, their variables rising strictly.
fn pairs_present(sheet: &[u8], count: u8, first: usize) -> bool
    requires { first + 2 * count ≤ length sheet.now }
    ensures { result ≡ present_pairs sheet.now count first 0 }
{
    let mut least = 0;
    for &[variable, value] in pairs_at(sheet, count, first) {
        if !pair_present(sheet, variable, value, least) {
            return false;
        }
        least = variable + 1;
    }
    true
}

// Kept: no plainer: where a list ends is one short sum, written where its count has just been read.

// Where the list that begins at a place ends, if it is no longer than there are variables and lies before an end.
fn list_end(sheet: &[u8], at: usize, end: usize) -> Option<usize>
    requires { end ≤ length sheet.now }
    ensures { result ≡ (if list_fits sheet.now at end then Some (end_of_list sheet.now at) else None) }
{
    if at >= end {
        return None;
    }
    let count = sheet[at];
    let next = at + 1 + 2 * count as usize;
    if count > byte_at(sheet, 6) || next > end {
        return None;
    }
    Some(next)
}

// The kind of sheet that is made of variables.
#[derive(Clone, Copy)]
pub struct Variables;

impl SheetKind for Variables {
    type Head = FiniteDomainHead;

    type Action = FiniteDomainAction;

    ghost reading = { finite_domain_reading };

    ghost tasks = { finite_domain_tasks };

    fn kind() -> Kind {
        Kind::FiniteDomain
    }

    fn head(sheet: &[u8], opening: Opening) -> Result<FiniteDomainHead, Refusal> {
        let d = opening.size as usize;
        FiniteDomainHead::new(
            opening.size,
            opening.actions,
            sixteen(sheet, 9, d),
            sixteen(sheet, 9 + d, d),
            sixteen(sheet, 9 + 2 * d, d),
        )
    }

    fn actions(head: &FiniteDomainHead) -> u16 {
        head.actions
    }

    fn first_record(head: &FiniteDomainHead) -> usize {
        9 + 3 * head.variables as usize
    }

    fn ending(sheet: &[u8], at: usize, end: usize) -> Option<usize> {
        let effects = list_end(sheet, at, end)?;
        list_end(sheet, effects, end)
    }

    fn present(sheet: &[u8], at: usize) -> bool {
        let count = sheet[at];
        let effects = at + 1 + 2 * count as usize;
        pairs_present(sheet, count, at + 1) && pairs_present(sheet, sheet[effects], effects + 1)
    }

    fn action_at(sheet: &[u8], at: usize) -> FiniteDomainAction {
        lists_at(sheet, at)
    }

    fn blank() -> FiniteDomainAction {
        FiniteDomainAction {
            preconditions: [ANY; 16],
            effects: [ANY; 16],
        }
    }

    fn states(head: &FiniteDomainHead) -> u32 {
        head.states
    }

    fn perform(
        head: &FiniteDomainHead,
        state: u32,
        action: &FiniteDomainAction,
        price: u32,
    ) -> Option<Transition> {
        head.perform(state, action, price)
    }

    fn is_goal(head: &FiniteDomainHead, state: u32) -> bool {
        head.meets_goal(state)
    }

    ghost laws = { finite_domain_reading_laws };

    ghost task_laws = { finite_domain_tasks_laws };
}

// Sixteen bytes, of which the first `count` are those of a sheet from a place on and the others 0.
fn sixteen(sheet: &[u8], at: usize, count: usize) -> [u8; 16]
    requires { at ≤ 1000 }
    ensures { (length result ≡ 16) × ((k : ℕ) → slice_index result k ≡ (if ltb k (min count 16) then byte_at sheet.now (at + k) else 0)) }
{
    std::array::from_fn(|i| if i < count { byte_at(sheet, at + i) } else { 0 })
}

// The list that begins at a place, as values by variable.
fn named_at(sheet: &[u8], at: usize) -> [u8; 16]
    requires inside { end_of_list sheet.now at ≤ length sheet.now }
    requires few { byte_at sheet.now 6 ≤ 16 }
    requires present { present_list sheet.now at ≡ true }
    ensures { result ≡ values_named (read_list sheet.now at) }
{
    let mut values = [ANY; 16];
    for &[variable, value] in pairs_at(sheet, sheet[at], at + 1) {
        values[variable as usize] = value;
    }
    values
}

// What the action whose lists begin at a place needs and sets.
fn lists_at(sheet: &[u8], at: usize) -> FiniteDomainAction
    requires inside { end_of_list sheet.now (end_of_list sheet.now at) ≤ length sheet.now }
    requires few { byte_at sheet.now 6 ≤ 16 }
    requires present { (present_list sheet.now at ≡ true) × (present_list sheet.now (end_of_list sheet.now at) ≡ true) }
    ensures { result ≡ does (read_assignments sheet.now at) }
{
    let effects = at + 1 + 2 * sheet[at] as usize;
    FiniteDomainAction {
        preconditions: named_at(sheet, at),
        effects: named_at(sheet, effects),
    }
}
