// The bytes of an output line, of tapeprint (document 01, "Tape", and M-102) or of live (M-106), written at the start of a lent buffer; and lines put into an output.
#![tactic(auto)]

ghost use Rattle.std.specs.Prelude.{◌≡◌, [], ◌∷◌, ◌++◌, ◌+◌, ◌*◌, ◌<◌, ◌≤◌, min, length, take, map};
ghost use Rattle.std.proofs.lemmas.List.Edits.{sets};
ghost use Rattle.rules.specs.Average.{averages_of, averages};
ghost use Rattle.rules.specs.Print.{title_line, fill_line, legs_line, average_line, refused_line, last_line, fill_lines, average_lines, record_lines, priced_lines, live_lines};
ghost use Rattle.rules.specs.Outcome.{Ended};
ghost use Rattle.rules.specs.Refusals.{least_room};
ghost use Rattle.types.specs.View.{from, rank_of, contra_of, fill_of, prices_of, cause_of, outcome_of};
ghost use Rattle.records.specs.Records.{record_at, prices_at};
ghost use Rattle.text.specs.Text.{digit, digits, signed_digits, rank_letter, contra_number, after, spaced};
ghost use Rattle.text.specs.Buffer.{Wrote, Put, Printed};
ghost use Rattle.text.specs.Answers.{outcome_text, opening_text};
ghost use Rattle.text.specs.Outputs.{most_line, Puts, PutsLine, PutsLines};
ghost use Rattle.average.specs.Sums.{first_records};
ghost use Rattle.text.specs.Averages.{averages_at};
ghost use Rattle.text.specs.Prices.{first_prices};
ghost use Rattle.text.specs.OwnCase.{OwnCaseText};

use types::{Cause, Contra, Fill, Outcome, Rank};

// The own case's lines are the bytes that document 01 shows, with the average line of M-102 behind the fills.
pub fn own_case_text()
    ensures { OwnCaseText }
{}

// ---- from an offset on; the buffer and the offset are no struct, since `put_title`, `put_refused`, `put_last`, `put_outcome` and `put_opening` fill a buffer of the caller's and give a size alone

fn put_byte(out: &mut [u8; 128], at: usize, b: u8) -> usize
    requires { at < 128 }
    ensures { Wrote (b ∷ []) at out.old result out.new × (result ≤ at + 1) }
{
    out[at] = b;
    at + 1
}

fn put_word(out: &mut [u8; 128], at: usize, word: &[u8]) -> usize
    requires { at + length word.now ≤ 128 }
    ensures { Wrote word.now at out.old result out.new }
{
    let n = word.len();
    out[at..at + n].copy_from_slice(word);
    at + n
}

// The digit of a number below 10.
fn put_digit(out: &mut [u8; 128], at: usize, n: u64) -> usize
    requires { (at < 128) × (n < 10) }
    ensures { Wrote (digit n ∷ []) at out.old result out.new }
{
    put_byte(out, at, b'0' + (n as u8))
}

// The digits of a number, the last one last.
fn put_digits(out: &mut [u8; 128], at: usize, n: u64) -> usize
    requires { at + length (digits n) ≤ 128 }
    ensures { Wrote (digits n) at out.old result out.new }
{
    if n < 10 {
        return put_digit(out, at, n);
    }
    let end = put_digits(out, at, n / 10);
    put_digit(out, end, n % 10)
}

// The digits of a number, of which there are at most 20.
fn put_number(out: &mut [u8; 128], at: usize, n: u64) -> usize
    requires { at ≤ 108 }
    ensures { Wrote (digits n) at out.old result out.new × (result ≤ at + 20) }
{
    put_digits(out, at, n)
}

// A number behind a space.
fn put_next(out: &mut [u8; 128], at: usize, n: u64) -> usize
    requires { at ≤ 107 }
    ensures { Wrote (32 ∷ digits n) at out.old result out.new × (result ≤ at + 21) }
{
    let at = put_byte(out, at, b' ');
    put_number(out, at, n)
}

// ---- signed

// A signed number behind a space.
fn put_signed(out: &mut [u8; 128], at: usize, v: i64) -> usize
    requires { at ≤ 106 }
    ensures { Wrote (32 ∷ signed_digits v) at out.old result out.new × (result ≤ at + 22) }
{
    let n = v.unsigned_abs();
    let at = put_byte(out, at, b' ');
    if v < 0 {
        let at = put_byte(out, at, b'-');
        return put_number(out, at, n);
    }
    put_number(out, at, n)
}

// ---- the values of a record

// A rank's letter; no `From`, since neither type is of this crate.
fn letter_of(rank: Rank) -> u8
    ensures { result ≡ rank_letter (rank_of rank) }
{
    match rank {
        Rank::L => b'L',
        Rank::C => b'C',
        Rank::N => b'N',
        Rank::T => b'T',
        Rank::R => b'R',
    }
}

// A rank's letter behind a space.
fn put_rank(out: &mut [u8; 128], at: usize, rank: Rank) -> usize
    requires { at ≤ 126 }
    ensures { Wrote (32 ∷ rank_letter (rank_of rank) ∷ []) at out.old result out.new × (result ≤ at + 2) }
{
    let at = put_byte(out, at, b' ');
    put_byte(out, at, letter_of(rank))
}

// "contra 0 is the legs"; no `From`, for the same reason.
fn contra_number(contra: Contra) -> u32
    ensures { result ≡ contra_number (contra_of contra) }
{
    match contra {
        Contra::Legs => 0,
        Contra::Entry(id) => id,
    }
}

// A contra's number behind a space.
fn put_contra(out: &mut [u8; 128], at: usize, contra: Contra) -> usize
    requires { at ≤ 107 }
    ensures { Wrote (32 ∷ digits (contra_number (contra_of contra))) at out.old result out.new × (result ≤ at + 21) }
{
    put_next(out, at, contra_number(contra) as u64)
}

// ---- a word with numbers, and the line's end

// Numbers, a space before each.
fn put_numbers(out: &mut [u8; 128], start: usize, numbers: &[u64]) -> usize
    requires { (length numbers.now ≤ 4) × (start ≤ 43) }
    ensures { Wrote (spaced numbers.now) start out.old result out.new × (result ≤ start + 84) }
{
    let mut at = start;
    for i in 0..numbers.len() {
        at = put_next(out, at, numbers[i]);
    }
    at
}

// A word, and numbers behind it.
fn put_line(out: &mut [u8; 128], word: &[u8], numbers: &[u64]) -> usize
    requires { (length word.now ≤ 43) × (length numbers.now ≤ 4) }
    ensures { Put (word.now ++ after (map digits numbers.now)) out.old result out.new }
{
    let at = put_word(out, 0, word);
    let at = put_numbers(out, at, numbers);
    put_byte(out, at, b'\n')
}

// ---- the lines of a tape

// The title line.
pub fn put_title(out: &mut [u8; 128]) -> usize
    ensures { Printed title_line out.old result out.new }
{
    put_word(out, 0, b"number order rank contra price units\n")
}

// A record.
fn put_fill(out: &mut [u8; 128], f: Fill) -> usize
    ensures { Printed (fill_line (fill_of f)) out.old result out.new }
{
    let rank = f.rank;
    let contra = f.contra;
    let at = put_number(out, 0, f.number);
    let at = put_next(out, at, f.order as u64);
    let at = put_rank(out, at, rank);
    let at = put_contra(out, at, contra);
    let at = put_signed(out, at, f.price);
    let at = put_next(out, at, f.units as u64);
    put_byte(out, at, b'\n')
}

// An order's average.
fn put_average(out: &mut [u8; 128], order: u32, quotient: i64, remainder: u64) -> usize
    ensures { Printed (average_line (record { order = order; quotient = quotient; remainder = remainder })) out.old result out.new }
{
    let at = put_word(out, 0, b"average");
    let at = put_next(out, at, order as u64);
    let at = put_signed(out, at, quotient);
    let at = put_next(out, at, remainder);
    put_byte(out, at, b'\n')
}

// "A refused line gives the tape position from 1, then the number".
pub fn put_refused(out: &mut [u8; 128], position: u64, number: u32) -> usize
    ensures { Printed (refused_line position number) out.old result out.new }
{
    put_line(out, b"refused", &[position, number as u64])
}

// "the last line counts open orders and responses".
pub fn put_last(out: &mut [u8; 128], orders: u64, answers: u64) -> usize
    ensures { Printed (last_line orders answers) out.old result out.new }
{
    let at = put_word(out, 0, b"open");
    let at = put_next(out, at, orders);
    let at = put_word(out, at, b" answers");
    let at = put_next(out, at, answers);
    put_byte(out, at, b'\n')
}

// ---- the lines of live

// The leg prices of a record.
fn put_legs(out: &mut [u8; 128], f: Fill) -> usize
    ensures { Printed (legs_line (prices_of f)) out.old result out.new }
{
    let legs = f.legs;
    let prices = f.prices;
    match legs {
        None => put_word(out, 0, b"legs none\n"),
        Some(n) => put_line(out, b"legs", &prices[..(n as usize).min(4)]),
    }
}

// The end of an auction, by its cause.
fn put_ended(out: &mut [u8; 128], cause: Cause, fills: u32) -> usize
    ensures { Put (outcome_text (Ended (cause_of cause) fills)) out.old result out.new }
{
    match cause {
        Cause::Time => put_line(out, b"ended time", &[fills as u64]),
        Cause::Order => put_line(out, b"ended order", &[fills as u64]),
        Cause::Legs => put_line(out, b"ended legs", &[fills as u64]),
        Cause::Cancel => put_line(out, b"ended cancel", &[fills as u64]),
    }
}

// The outcome of a message.
pub fn put_outcome(out: &mut [u8; 128], o: Outcome) -> usize
    ensures { Put (outcome_text (outcome_of o)) out.old result out.new }
{
    match o {
        Outcome::Noted(fills) => put_line(out, b"noted", &[fills as u64]),
        Outcome::Placed(units, fills) => put_line(out, b"placed", &[units as u64, fills as u64]),
        Outcome::Begun(deadline) => put_line(out, b"begun", &[deadline]),
        Outcome::Joined(units) => put_line(out, b"joined", &[units]),
        Outcome::Ended(cause, fills) => put_ended(out, cause, fills),
        Outcome::Refused(row) => put_line(out, b"refused", &[u32::from(row) as u64]),
    }
}

// The answer to an opening, by the number that refuses it or 0.
pub fn put_opening(out: &mut [u8; 128], number: u32) -> usize
    ensures { Put (opening_text number) out.old result out.new }
{
    if number == 0 {
        return put_word(out, 0, b"opened\n");
    }
    put_line(out, b"refused", &[number as u64])
}

// ---- lines of an output, each as far as the output has room

// The first n bytes of a line, from an offset of the output on.
fn add_within(out: &mut [u8], at: usize, line: &[u8; 128], n: usize) -> usize
    requires { (n ≤ 128) × (at ≤ length out.old) }
    ensures { (out.new ≡ sets out.old at (take n line.now)) × (result ≡ min (at + n) (length out.old)) × (length out.new ≡ length out.old) }
{
    let m = n.min(out.len() - at);
    out[at..at + m].copy_from_slice(&line[..m]);
    at + m
}

// The same for any offset and any number: past the end of the output, or of the line, nothing is put.
pub fn add(out: &mut [u8], at: usize, line: &[u8; 128], n: usize) -> usize
    ensures { Puts (take n line.now) out.old at result out.new }
{
    let start = at.min(out.len());
    let size = n.min(128);
    add_within(out, start, line, size)
}

// A record. This, `add_legs` and `add_average` are the same but for one call: a closure in its place would need its contract written at each of them.
fn add_fill(out: &mut [u8], at: usize, f: Fill) -> usize
    ensures { PutsLine (fill_line (fill_of f)) out at result }
{
    let mut line = [0u8; 128];
    let n = put_fill(&mut line, f);
    add(out, at, &line, n)
}

// The first n records of a list.
fn add_fills(list: &[u64], n: usize, out: &mut [u8], start: usize) -> usize
    ensures { PutsLines (fill_lines (from (record_at list.now) 0 n)) (most_line * n) out start result }
{
    let mut at = start.min(out.len());
    for i in 0..n {
        at = add_fill(out, at, records::fill_at(list, i));
    }
    at
}

// ---- leg prices behind each record

// The leg prices of a record.
fn add_legs(out: &mut [u8], at: usize, f: Fill) -> usize
    ensures { PutsLine (legs_line (prices_of f)) out at result }
{
    let mut line = [0u8; 128];
    let n = put_legs(&mut line, f);
    add(out, at, &line, n)
}

// A record, and then its leg prices.
fn add_both(out: &mut [u8], at: usize, f: Fill) -> usize
    ensures { PutsLines (fill_line (fill_of f) ∷ legs_line (prices_of f) ∷ []) (2 * most_line) out at result }
{
    let behind = add_fill(out, at, f);
    add_legs(out, behind, f)
}

// The first n records of a list, each with its leg prices. The loop of `add_fills` with another call: one for both would take a closure and its law, and be longer.
fn add_priced(list: &[u64], n: usize, out: &mut [u8], start: usize) -> usize
    ensures { PutsLines (priced_lines (from (record_at list.now) 0 n) (from (prices_at list.now) 0 n)) (2 * most_line * n) out start result }
{
    let mut at = start.min(out.len());
    for i in 0..n {
        at = add_both(out, at, records::fill_at(list, i));
    }
    at
}

// ---- averages behind records

// An order's average.
fn add_average(out: &mut [u8], at: usize, order: u32, quotient: i64, remainder: u64) -> usize
    ensures { PutsLine (average_line (record { order = order; quotient = quotient; remainder = remainder })) out at result }
{
    let mut line = [0u8; 128];
    let n = put_average(&mut line, order, quotient, remainder);
    add(out, at, &line, n)
}

// That of an order over the first n records of a list, if it has one.
fn add_order(list: &[u64], n: usize, order: u32, out: &mut [u8], at: usize) -> usize
    ensures { PutsLines (average_lines (averages_of (first_records list.now n) (order ∷ []))) most_line out at result }
{
    match average::average_of(list, n, order) {
        None => at.min(out.len()),
        Some(a) => add_average(out, at, order, a.quotient, a.remainder),
    }
}

// That of the order of the record at a place, where it is the order's first.
fn add_first(list: &[u64], n: usize, j: usize, out: &mut [u8], at: usize) -> usize
    ensures { PutsLines (average_lines (averages_at list.now n j)) most_line out at result }
{
    if average::is_first(list, j) {
        return add_order(list, n, records::order_at(list, j), out, at);
    }
    at.min(out.len())
}

// Those of the first n records of a list, by first record.
fn add_averages(list: &[u64], n: usize, out: &mut [u8], start: usize) -> usize
    ensures { PutsLines (average_lines (averages (first_records list.now n))) (most_line * min n least_room) out start result }
{
    let count = n.min(Fill::LEAST_ROOM);
    let mut at = start.min(out.len());
    for i in 0..count {
        at = add_first(list, n, i, out, at);
    }
    at
}

// ---- the records of a message

// The first n records of a list, of which a message has at most 2,000, and their averages.
pub fn add_records(list: &[u64], n: usize, out: &mut [u8], start: usize) -> usize
    ensures { PutsLines (record_lines (first_records list.now n)) (2 * most_line * min n least_room) out start result }
{
    if n == 0 {
        return start.min(out.len());
    }
    let count = n.min(Fill::LEAST_ROOM);
    let behind = add_fills(list, count, out, start);
    add_averages(list, n, out, behind)
}

// The same in live, with the leg prices of each record.
pub fn add_live(list: &[u64], n: usize, out: &mut [u8], start: usize) -> usize
    ensures { PutsLines (live_lines (first_records list.now n) (first_prices list.now n)) (3 * most_line * min n least_room) out start result }
{
    if n == 0 {
        return start.min(out.len());
    }
    let count = n.min(Fill::LEAST_ROOM);
    let end = add_priced(list, count, out, start);
    add_averages(list, n, out, end)
}
