// What a host and live are answered, from the fields or the bytes of a record. The state is changed in place, the records are written into the lent list, and the bytes of the answers into a lent output.
#![tactic(auto)]

ghost use Rattle.std.specs.Prelude.{◌*◌, ◌≤◌, length};
ghost use Rattle.rules.specs.Refusals.{least_room};
ghost use Rattle.rules.specs.Tape.{header_bytes, fields_of as fields_in};
ghost use Rattle.types.specs.Refusals.{number_in};
ghost use Rattle.types.specs.View.{outcome_of};
ghost use Rattle.records.specs.Records.{width};
ghost use Rattle.tape.specs.View.{fields_of, strategy_from};
ghost use Rattle.opening.specs.Opens.{IsOpened};
ghost use Rattle.text.specs.Answers.{outcome_text};
ghost use Rattle.text.specs.Outputs.{most_line, PutsText};
ghost use Rattle.feed.specs.Replies.{Answers, Tells, IsRun};

use engine::Answer;
use state::{Longs, Words};
use tape::{Fields, Header, Section};
use types::{Fill, Outcome, Refusal};

// The bytes of a message record.
const RECORD: usize = Section::MESSAGE as usize;

// Between two records of an input: how many are behind, and the offset in the output.
#[derive(Clone, Copy)]
pub struct Cursor {
    pub position: usize,
    pub at: usize,
}

// ---- the answers

// A header, and the legs right behind it. The header's offsets and its message count are not used.
pub fn open(longs: &mut [u64], words: &mut [u32], head: &[u8]) -> Result<(), Refusal>
    ensures { IsOpened longs words (strategy_from header_bytes head.now) (number_in result) }
{
    let o = tape::strategy_from(head, Header::BYTES as u16);
    opening::open(longs, words, o)
}

// The fields of a message record, with so many places for its fill records; a record of no kind is refused.
pub fn answer_of(
    longs: &mut [u64],
    words: &mut [u32],
    list: &mut [u64],
    f: Fields,
    room: usize,
) -> Answer
    ensures { Answers longs words list (fields_of f) room result }
{
    if tape::is_kind(f.kind) {
        let m = tape::message_from(f);
        return engine::step(longs, words, list, m, room);
    }
    Answer {
        count: 0,
        outcome: Outcome::Refused(Refusal::Kind),
    }
}

// The same from its bytes, with the places that suffice for every message.
pub fn answer(longs: &mut [u64], words: &mut [u32], list: &mut [u64], p: &[u8]) -> Answer
    ensures { Answers longs words list (fields_in p.now) least_room result }
{
    let f = tape::fields_of(p);
    answer_of(longs, words, list, f, Fill::LEAST_ROOM)
}

// ---- their lines in an output, each as far as the output has room

// The outcome's line.
fn put_outcome(out: &mut [u8], at: usize, o: Outcome) -> usize
    ensures { PutsText (outcome_text (outcome_of o)) most_line out at result }
{
    let mut line = [0u8; 128];
    let n = text::put_outcome(&mut line, o);
    text::add(out, at, &line, n)
}

// A message record answered: the outcome's line, and then those of its records, each with its leg prices, and their averages.
pub fn tell(
    longs: &mut Longs,
    words: &mut Words,
    list: &mut [u64],
    out: &mut [u8],
    at: usize,
    p: &[u8],
) -> usize
    requires { least_room * width ≤ length list.old }
    ensures { Tells longs words list out at p.now result }
{
    let a = answer(longs, words, list, p);
    let outcome = a.outcome;
    let behind = put_outcome(out, at, outcome);
    text::add_live(list, a.count, out, behind)
}

// ---- record after record

// The whole records of an input from a position on, until all are told or the output is written past an offset.
pub fn run(
    longs: &mut Longs,
    words: &mut Words,
    list: &mut [u64],
    out: &mut [u8],
    input: &[u8],
    p: Cursor,
    most: usize,
) -> Cursor
    requires { least_room * width ≤ length list.old }
    ensures { IsRun longs words out input p most result }
{
    let count = input.len() / RECORD;
    let mut at = p.at.min(out.len());
    let mut position = p.position;
    // No `for`: the position, handed back behind it, would be worked out anew as `p.position.max(count)`.
    while position < count {
        if most < at {
            return Cursor { position, at };
        }
        let start = RECORD * position;
        at = tell(longs, words, list, out, at, &input[start..]);
        position += 1;
    }
    Cursor { position, at }
}
