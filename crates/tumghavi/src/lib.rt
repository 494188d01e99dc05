// For hosts in C and Rust: a copy of the engine in two arrays that the host keeps, the average price of an order, and a tape's output and its form as bytes.
#![tactic(auto)]

ghost use Rattle.std.specs.Prelude.{◌≡◌, min, length, drop};
ghost use Rattle.std.proofs.lemmas.List.Edits.{sets};
ghost use Rattle.rules.specs.Book.{count, is_response};
ghost use Rattle.rules.specs.Refusals.{is_order};
ghost use Rattle.rules.specs.Tape.{messages_from};
ghost use Rattle.rules.specs.Average.{average_for};
ghost use Rattle.rules.specs.Print.{lines_from};
ghost use Rattle.types.specs.View.{cause_of, outcome_of, opening_of};
ghost use Rattle.state.specs.View.{state_of};
ghost use Rattle.state.specs.Lent.{Tells};
ghost use Rattle.text.specs.Text.{lines_text};
ghost use Rattle.average.specs.Sums.{first_records};
ghost use Rattle.tape.specs.View.{fields_of};
ghost use Rattle.opening.specs.Opens.{IsOpened};
ghost use Rattle.text.specs.Outputs.{Puts};
ghost use Rattle.session.specs.Lines.{tape_text};
ghost use Rattle.average.specs.Parts.{average_of as average_in};
ghost use Rattle.form.specs.Writes.{reply_of as reply_in};
ghost use Rattle.tumghavi.specs.Told.{cause_number, numbers, numbers_of, average_numbers, reply_of, record_of, Told, Formed};

use book::Counts;
use records::Record;
use session::{Cursor, Start};
use state::{Longs, State, Words};
use tape::{Fields, Section};
use types::{Cause, Fill, Opening, Refusal};

// The bytes of a message record, and the numbers of 2,000 fill records.
const RECORD: usize = Section::MESSAGE as usize;

const NUMBERS: usize = Record::NUMBERS * Fill::LEAST_ROOM;

// ---- an outcome in numbers

// What a message is answered with: kind, cause of an end, number of a refusal, fills, units open or in the queue, deadline. What the outcome does not have is 0.
#[repr(C)]
#[derive(Clone, Copy)]
pub struct Outcome {
    pub kind: u32,
    pub cause: u32,
    pub number: u32,
    pub fills: u32,
    pub units: u64,
    pub deadline: u64,
}

impl Outcome {
    pub const NOTED: u32 = 1;

    pub const PLACED: u32 = 2;

    pub const BEGUN: u32 = 3;

    pub const JOINED: u32 = 4;

    pub const ENDED: u32 = 5;

    pub const REFUSED: u32 = 6;

    // The causes.
    pub const BY_TIME: u32 = 1;

    pub const BY_ORDER: u32 = 2;

    pub const BY_LEGS: u32 = 3;

    pub const BY_CANCEL: u32 = 4;
}

// The number of a cause; no `From`, since neither type is of this crate.
fn cause_number(c: Cause) -> u32
    ensures { result ≡ cause_number (cause_of c) }
{
    match c {
        Cause::Time => Outcome::BY_TIME,
        Cause::Order => Outcome::BY_ORDER,
        Cause::Legs => Outcome::BY_LEGS,
        Cause::Cancel => Outcome::BY_CANCEL,
    }
}

// The six numbers.
fn numbers(kind: u32, cause: u32, number: u32, fills: u32, units: u64, deadline: u64) -> Outcome
    ensures { result ≡ numbers kind cause number fills units deadline }
{
    Outcome {
        kind,
        cause,
        number,
        fills,
        units,
        deadline,
    }
}

// Those of an outcome.
impl From<types::Outcome> for Outcome {
    ghost from_gives = { λ o told. told ≡ numbers_of (outcome_of o) };

    fn from(o: types::Outcome) -> Outcome {
        match o {
            types::Outcome::Noted(n) => numbers(Outcome::NOTED, 0, 0, n, 0, 0),
            types::Outcome::Placed(u, n) => numbers(Outcome::PLACED, 0, 0, n, u as u64, 0),
            types::Outcome::Begun(t) => numbers(Outcome::BEGUN, 0, 0, 0, 0, t),
            types::Outcome::Joined(u) => numbers(Outcome::JOINED, 0, 0, 0, u, 0),
            types::Outcome::Ended(c, n) => numbers(Outcome::ENDED, cause_number(c), 0, n, 0, 0),
            types::Outcome::Refused(row) => numbers(Outcome::REFUSED, 0, u32::from(row), 0, 0, 0),
        }
    }
}

// ---- an average in numbers

// The average price of an order: kind, quotient and remainder. Where there is none both are 0.
#[repr(C)]
#[derive(Clone, Copy)]
pub struct Average {
    pub kind: u32,
    pub quotient: i64,
    pub remainder: u64,
}

impl Average {
    pub const NONE: u32 = 1;

    pub const EXACT: u32 = 2;
}

// Those of an average, if there is one.
impl From<Option<average::Average>> for Average {
    ghost from_gives = { λ found told. told ≡ average_numbers (average_in found) };

    fn from(found: Option<average::Average>) -> Average {
        match found {
            None => Average {
                kind: Average::NONE,
                quotient: 0,
                remainder: 0,
            },
            Some(a) => Average {
                kind: Average::EXACT,
                quotient: a.quotient,
                remainder: a.remainder,
            },
        }
    }
}

// That of an order over as many records at the start of a list as an outcome counts; of more than 2,000, which no message has, over the first 2,000.
#[unsafe(no_mangle)]
pub extern "C" fn tumghavi_average_in(list: &[u64], fills: usize, order: u32) -> Average
    ensures { result ≡ average_numbers (average_for order (first_records list.now fills)) }
{
    Average::from(average::average_of(list, fills, order))
}

// ---- a copy

// A copy opened: 0, and the arrays hold its state, whatever they held; or the number that refuses it, and they are as they were.
#[unsafe(no_mangle)]
pub extern "C" fn tumghavi_open_in(longs: &mut [u64; 71], words: &mut [u32; 580], o: Opening) -> u32
    ensures { IsOpened longs words (opening_of o) result }
{
    types::number_in(opening::open(longs, words, o))
}

// A message record's fields answered in a copy, with all places of the list. Inlined: as a call of its own, a record of no kind took half as long again.
#[inline(always)]
fn tell(longs: &mut Longs, words: &mut Words, list: &mut [u64], f: Fields) -> Outcome
    ensures { Told longs words list (fields_of f) result }
{
    let places = list.len() / Record::NUMBERS;
    let a = feed::answer_of(longs, words, list, f, places);
    Outcome::from(a.outcome)
}

// A message: its outcome, and its fill records at the start of the list.
#[unsafe(no_mangle)]
pub extern "C" fn tumghavi_step_in(
    longs: &mut [u64; 71],
    words: &mut [u32; 580],
    list: &mut [u64],
    m: Fields,
) -> Outcome
    ensures { Told longs words list (fields_of m) result }
{
    tell(longs, words, list, m)
}

// The fields of a record's bytes. Bytes of another size are no record and read as none of them: kind 0, which is refused.
fn record_of(p: &[u8]) -> Fields
    ensures { fields_of result ≡ record_of p.now }
{
    if p.len() == RECORD {
        return tape::fields_of(p);
    }
    tape::fields_of(&p[..0])
}

// The same from the bytes of a message record.
#[unsafe(no_mangle)]
pub extern "C" fn tumghavi_record_in(
    longs: &mut [u64; 71],
    words: &mut [u32; 580],
    list: &mut [u64],
    bytes: &[u8],
) -> Outcome
    ensures { Told longs words list (record_of bytes.now) result }
{
    let f = record_of(bytes);
    tell(longs, words, list, f)
}

// How many orders and how many responses are open in a copy.
#[unsafe(no_mangle)]
pub extern "C" fn tumghavi_counts_in(words: &[u32; 580]) -> Counts
    ensures { Tells words (λ s. (result.orders ≡ count is_order s.book) × (result.responses ≡ count (λ e. is_response e.stage) s.book)) }
{
    book::open_counts(words)
}

// ---- a tape

// The messages of a tape that is not turned back, and the last line.
fn put_messages(
    longs: &mut Longs,
    words: &mut Words,
    out: &mut [u8],
    at: usize,
    tape: &[u8],
    b: Start,
) -> usize
    ensures { Puts (lines_text (lines_from 1 (state_of longs.old words.old) (messages_from b.count (drop b.at tape.now)))) out.old at result out.new }
{
    let mut list = [0u64; NUMBERS];
    let first = Cursor {
        position: 0,
        next: b.at,
        at,
    };
    let room = out.len();
    let last = session::run(longs, words, &mut list, out, tape, b.count, first, room);
    session::put_last(words, out, last.at)
}

// The bytes that tapeprint prints for a tape, as many as the output has room for, and how many they are. What stands behind them is as it was.
#[unsafe(no_mangle)]
pub extern "C" fn tumghavi_print(tape: &[u8], out: &mut [u8]) -> usize
    ensures { (result ≡ min (length (tape_text tape.now)) (length out.old)) × (out.new ≡ sets out.old 0 (tape_text tape.now)) }
{
    let mut longs = [0u64; State::LONGS];
    let mut words = [0u32; State::WORDS];
    match session::begin(&mut longs, &mut words, tape) {
        Ok(b) => {
            let at = session::put_title(out, 0);
            put_messages(&mut longs, &mut words, out, at, tape, b)
        }
        Err(back) => session::put_refused(out, 0, 0, u32::from(back.row)),
    }
}

// What a writer of a form gives: the number that turns the tape or the output back, 0 for none, and how many bytes the form has, 0 where it is not written.
#[repr(C)]
#[derive(Clone, Copy)]
pub struct Reply {
    pub number: u32,
    pub size: usize,
}

// Of a form that is written or turned back.
impl From<Result<usize, Refusal>> for Reply {
    ghost from_gives = { λ written told. reply_of told ≡ reply_in written };

    fn from(written: Result<usize, Refusal>) -> Reply {
        match written {
            Ok(size) => Reply { number: 0, size },
            Err(row) => Reply {
                number: u32::from(row),
                size: 0,
            },
        }
    }
}

// The written form of a tape at the start of the output, and how many bytes it has; what stands behind it is as it was. Or the number that turns the tape or the output back, and every byte is as it was.
#[unsafe(no_mangle)]
pub extern "C" fn tumghavi_form(tape: &[u8], out: &mut [u8]) -> Reply
    ensures { Formed tape out result }
{
    Reply::from(form::write(tape, out))
}
