// Document 01, "Tape", and M-102: a tape's messages through the engine, and the bytes that each prints. The state stands in two lent slices, the records of a message in a lent list.
#![tactic(auto)]

ghost use Rattle.std.specs.Prelude.{List, ℕ, ◌*◌, ◌≤◌, length};
ghost use Rattle.rules.specs.Refusals.{least_room};
ghost use Rattle.rules.specs.Print.{title_line, refused_line, closing, refused_lines};
ghost use Rattle.types.specs.Refusals.{number_in};
ghost use Rattle.types.specs.View.{message_of, outcome_of};
ghost use Rattle.state.specs.View.{state_of};
ghost use Rattle.records.specs.Records.{width};
ghost use Rattle.text.specs.Outputs.{most_line, PutsLine, PutsLines};
ghost use Rattle.session.specs.Lines.{IsOpenedBy, IsBegun, Tells, IsRun};

use state::{Longs, Words};
use types::{Fill, Message, Outcome, Refusal};

// How a tape begins: how many messages there are, and where the first one starts.
#[derive(Clone, Copy)]
pub struct Start {
    pub count: usize,
    pub at: usize,
}

// A tape that is turned back: by which row, and what its header says of its messages all the same.
#[derive(Clone, Copy)]
pub struct TurnedBack {
    pub row: Refusal,
    pub start: Start,
}

// Between two messages of a tape: how many are behind, where the next one starts, and the offset in the output.
#[derive(Clone, Copy)]
pub struct Cursor {
    pub position: usize,
    pub next: usize,
    pub at: usize,
}

// ---- a tape begins

// The opening of a tape, stored in the slices; or the row that turns back the tape or its opening.
fn opened(longs: &mut Longs, words: &mut Words, tape: &[u8]) -> Result<(), Refusal>
    ensures { IsOpenedBy longs words tape (number_in result) }
{
    tape::refusal(tape)?;
    opening::open(longs, words, tape::strategy_of(tape))
}

// The same, and what the header says of the messages, of a tape that is turned back too.
pub fn begin(longs: &mut Longs, words: &mut Words, tape: &[u8]) -> Result<Start, TurnedBack>
    ensures { IsBegun longs words tape result }
{
    let h = tape::header_of(tape);
    let start = Start {
        count: h.messagecount as usize,
        at: h.messageoffset as usize,
    };
    match opened(longs, words, tape) {
        Ok(()) => Ok(start),
        Err(row) => Err(TurnedBack { row, start }),
    }
}

// ---- lines of an output, each as far as the output has room

// The title.
pub fn put_title(out: &mut [u8], at: usize) -> usize
    ensures { PutsLine title_line out at result }
{
    let mut line = [0u8; 128];
    let n = text::put_title(&mut line);
    text::add(out, at, &line, n)
}

// "A refused line gives the tape position from 1, then the number".
pub fn put_refused(out: &mut [u8], at: usize, position: usize, number: u32) -> usize
    ensures { PutsLine (refused_line position number) out at result }
{
    let mut line = [0u8; 128];
    let n = text::put_refused(&mut line, position as u64, number);
    text::add(out, at, &line, n)
}

// "the last line counts open orders and responses".
pub fn put_last(words: &Words, out: &mut [u8], at: usize) -> usize
    ensures { (longs : List ℕ) → PutsLine (closing (state_of longs words.now)) out at result }
{
    let mut line = [0u8; 128];
    let counts = book::open_counts(words);
    let n = text::put_last(&mut line, counts.orders as u64, counts.responses as u64);
    text::add(out, at, &line, n)
}

// ---- a message

// The refused line, where a message is refused.
fn put_outcome(out: &mut [u8], at: usize, position: usize, o: Outcome) -> usize
    ensures { PutsLines (refused_lines position (outcome_of o)) most_line out at result }
{
    let start = at.min(out.len());
    match o {
        Outcome::Noted(n) => start,
        Outcome::Placed(u, n) => start,
        Outcome::Begun(t) => start,
        Outcome::Joined(u) => start,
        Outcome::Ended(c, n) => start,
        Outcome::Refused(row) => put_refused(out, at, position, u32::from(row)),
    }
}

// A message at a tape position: its records and their averages, or the refused line.
pub fn tell(
    longs: &mut Longs,
    words: &mut Words,
    list: &mut [u64],
    out: &mut [u8],
    at: usize,
    position: usize,
    m: Message,
) -> usize
    requires { least_room * width ≤ length list.old }
    ensures { Tells longs words list out at position (message_of m) result }
{
    let a = engine::step(longs, words, list, m, Fill::LEAST_ROOM);
    let outcome = a.outcome;
    let behind = text::add_records(list, a.count, out, at);
    put_outcome(out, behind, position, outcome)
}

// ---- message after message

// The messages of a tape from an offset on, until all are told or the output is written past an offset.
pub fn run(
    longs: &mut Longs,
    words: &mut Words,
    list: &mut [u64],
    out: &mut [u8],
    tape: &[u8],
    count: usize,
    p: Cursor,
    most: usize,
) -> Cursor
    requires { least_room * width ≤ length list.old }
    ensures { IsRun longs words out tape count p most result }
{
    let mut at = p.at.min(out.len());
    let mut next = p.next;
    let mut position = p.position;
    // No `for`: the position, handed back behind it, would be worked out anew as `p.position.max(count)`.
    while position < count {
        if most < at {
            return Cursor { position, next, at };
        }
        let t = tape::take_message(tape, next);
        next = t.next;
        position += 1;
        at = tell(longs, words, list, out, at, position, t.message);
    }
    Cursor { position, next, at }
}
