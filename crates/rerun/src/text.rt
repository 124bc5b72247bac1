// The lines that the program writes (document 01, 'The program'), in a text of a fixed room.

ghost use Rattle.std.specs.Prelude.{◌≡◌, ◌++◌, ◌+◌, ◌≤◌};
ghost use Rattle.arrayvec.specs.ArrayString.{array_string_len};
ghost use Rattle.basis.specs.Refusal.{answer_of, number_of};
ghost use Rattle.rerun.specs.Text.{decimal, line_of, lines_of, program_text, word_text};

use super::ended::Ended;
use arrayvec::ArrayString;
use basis::Refusal;
use fleet::State;
use itoa::Buffer;

#[derive(Drop)]
struct Room {}

impl Room {
    // Of a u32 at most.
    const NUMBER: usize = 10;
    // A space, a sign and a u32.
    const WORD: usize = 12;
    // Enough for the lines of any state, or for a refusal.
    const TEXT: usize = 9 + Room::NUMBER + Room::WORD * State::WORDS;
}

// Every push to it has its room proved, so none of them fails. By `write!` the text would be proved
// only of writes that don't fail, and a `fmt` that gave up would pass.
pub type Text = ArrayString<{ Room::TEXT }>;

// A number in decimal.
#[tactic(auto, using(crate::proofs::Decimals::same))]
fn push_number(text: &mut Text, n: u32)
    requires room { array_string_len text.old + Room.NUMBER ≤ Room.TEXT }
    ensures pushed { text.new.bytes ≡ text.old.bytes ++ decimal n }
    ensures len { array_string_len text.new ≤ array_string_len text.old + Room.NUMBER }
{
    text.push_str(Buffer::new().format(n));
}

// A space, then the word with its sign.
fn push_word(text: &mut Text, z: i32)
    requires room { array_string_len text.old + Room.WORD ≤ Room.TEXT }
    ensures pushed { text.new.bytes ≡ text.old.bytes ++ word_text z }
    ensures len { array_string_len text.new ≤ array_string_len text.old + Room.WORD }
{
    text.push(' ');
    text.push_str(Buffer::new().format(z));
}

// 'steps N', then a line for carrier 0.
#[tactic(auto, unfolding(crate::specs::Text::lines_of, crate::specs::Ascii::ascii))]
fn lines(ended: Ended) -> Text
    ensures lines { result.bytes ≡ lines_of ended }
{
    let mut text = Text::new();
    text.push_str("steps ");
    push_number(&mut text, ended.steps);
    text.push_str("\n0");
    for z in ended.state {
        push_word(&mut text, z);
    }
    text.push('\n');
    text
}

// The one line 'refused N'.
#[tactic(auto, unfolding(crate::specs::Text::line_of, crate::specs::Ascii::ascii))]
fn line(why: Refusal) -> Text
    ensures line { result.bytes ≡ line_of (number_of why) }
{
    let mut text = Text::new();
    text.push_str("refused ");
    push_number(&mut text, u32::from(why));
    text.push('\n');
    text
}

// What is written of what a log comes to.
pub fn text_of(outcome: Result<Ended, Refusal>) -> Text
    ensures text { result.bytes ≡ program_text (answer_of outcome) }
{
    match outcome {
        Ok(ended) => lines(ended),
        Err(why) => line(why),
    }
}
