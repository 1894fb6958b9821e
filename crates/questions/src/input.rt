// A sheet and questions about it, in one input.
ghost use Rattle.std.specs.Prelude.{◌+◌, ◌<◌, length, MatchOption};
ghost use Rattle.questions.specs.Input.{Split, QuestionAt, QuestionOf};

use planning::refusal::Refusal;

// An input, the sheet in it, how many questions follow, and where the first begins.
// Kept: no plainer: the questions are asked for by number, and each is told with its place in the input.
#[derive(Clone, Copy)]
pub struct Asked<'a> {
    pub input: &'a [u8],
    pub sheet: &'a [u8],
    pub count: u16,
    pub place: usize,
}

// A question as a part of the input, with its place there.
#[derive(Clone, Copy)]
pub struct Question<'a> {
    pub place: usize,
    pub bytes: &'a [u8],
    pub state: u32,
    pub action: u16,
}

// Where the sheet's stated length says that it ends, the questions begin.
pub fn split(input: &[u8]) -> Result<Asked<'_>, Refusal>
    ensures { Split input.now result }
{
    let refusal = Refusal::Length { given: input.len() };
    let [_, l3, l2, l1, l0, ..] = input else {
        return Err(refusal);
    };
    let end = u32::from_be_bytes([*l3, *l2, *l1, *l0]) as usize;
    let (sheet, rest) = input.split_at_checked(end).ok_or(refusal)?;
    let (count, questions) = rest.split_first_chunk::<2>().ok_or(refusal)?;
    let count = u16::from_be_bytes(*count);
    if questions.len() != 6 * count as usize {
        return Err(refusal);
    }
    Ok(Asked {
        input,
        sheet,
        count,
        place: end + 2,
    })
}

// The question at a place of an input, if all of it is there.
fn question_at(input: &[u8], place: usize) -> Option<Question<'_>>
    ensures { MatchOption result (length input.now < place + 6) (QuestionAt input.now place) }
{
    let bytes = input.get(place..)?.first_chunk::<6>()?;
    let [s3, s2, s1, s0, a1, a0] = *bytes;
    Some(Question {
        place,
        bytes,
        state: u32::from_be_bytes([s3, s2, s1, s0]),
        action: u16::from_be_bytes([a1, a0]),
    })
}

impl<'a> Asked<'a> {
    // A question by its number, if it is there.
    pub fn question(&self, number: u16) -> Option<Question<'a>>
        ensures { QuestionOf self.now number result }
    {
        if number >= self.count {
            return None;
        }
        question_at(self.input, self.place.checked_add(6 * number as usize)?)
    }
}
