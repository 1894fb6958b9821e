// The lines that answer questions.
ghost use Rattle.std.specs.Prelude.{◌≡◌, ◌+◌, ◌≤◌, [], ◌∷◌, ◌++◌, length, decimal};
ghost use Rattle.arrayvec.specs.ArrayString.{array_string_len};
ghost use Rattle.questions.specs.Lines.{refused_of, answer_of, line_of, refused_line, Delivered};

use arrayvec::ArrayString;
use itoa::Buffer;
use planning::refusal::Refusal;
use planning::status::Status;

// The text of a line, of 32 bytes at most.
type Line = ArrayString<32>;

// Kept: no plainer: each function has a bound of its own on the text before and after, so that no type holds them.

// In decimal, with no leading zero.
fn push_number(text: &mut Line, number: u32)
    requires { array_string_len text.old + length (decimal number) ≤ 32 }
    ensures bytes { text.new.bytes ≡ text.old.bytes ++ decimal number }
    ensures len { array_string_len text.new ≡ array_string_len text.old + length (decimal number) }
{
    text.push_str(Buffer::new().format(number));
}

#[tactic(auto, using(crate::proofs::Digits::three_digits))]
fn push_refused(text: &mut Line, refusal: Refusal)
    requires { array_string_len text.old ≤ 21 }
    ensures bytes { text.new.bytes ≡ text.old.bytes ++ refused_of refusal }
    ensures len { array_string_len text.new ≤ array_string_len text.old + 11 }
{
    text.push_str("refused ");
    push_number(text, refusal.number() as u32);
}

fn push_answer(text: &mut Line, answer: Result<Status, Refusal>)
    requires { array_string_len text.old ≤ 20 }
    ensures bytes { text.new.bytes ≡ text.old.bytes ++ answer_of answer }
    ensures len { array_string_len text.new ≤ array_string_len text.old + 11 }
{
    match answer {
        Ok(status) => text.push_str(status.word()),
        Err(refusal) => push_refused(text, refusal),
    }
}

fn deliver(text: &Line, buffer: &mut [u8]) -> Result<usize, Refusal>
    ensures { Delivered text.now.bytes buffer.old buffer.new result }
{
    if buffer.len() < 32 {
        return Err(Refusal::Short { needed: 32 });
    }
    let line = text.as_str().as_bytes();
    buffer[..line.len()].copy_from_slice(line);
    Ok(line.len())
}

// The state and the action that a line is about, each with a blank behind it.
#[tactic(auto, using(crate::proofs::Digits::ten_digits, crate::proofs::Digits::five_digits))]
fn subject(state: u32, action: u16) -> Line
    ensures bytes { result.bytes ≡ decimal state ++ (32 ∷ (decimal action ++ (32 ∷ []))) }
    ensures len { array_string_len result ≤ 17 }
{
    let mut text = Line::new();
    push_number(&mut text, state);
    text.push_str(" ");
    push_number(&mut text, action as u32);
    text.push_str(" ");
    text
}

// Kept: a rule of the project: a line goes into the caller's buffer of 32 bytes or more, and its length is answered.

// The line that answers a question, into a buffer of 32 bytes or more; answers its length.
pub fn write_line(
    buffer: &mut [u8],
    state: u32,
    action: u16,
    answer: Result<Status, Refusal>,
) -> Result<usize, Refusal>
    ensures { Delivered (line_of state action answer) buffer.old buffer.new result }
{
    let mut text = subject(state, action);
    push_answer(&mut text, answer);
    text.push_str("\n");
    deliver(&text, buffer)
}

// The line of a sheet or a question part that is refused.
pub fn write_refused(buffer: &mut [u8], refusal: Refusal) -> Result<usize, Refusal>
    ensures { Delivered (refused_line refusal) buffer.old buffer.new result }
{
    let mut text = Line::new();
    push_refused(&mut text, refusal);
    text.push_str("\n");
    deliver(&text, buffer)
}
