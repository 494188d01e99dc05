// Document 02, M-100: the written form of a tape, in a lent buffer. Bytes are copied under the reader's table of fields, and no number is read and written again but the messages' offset.
#![tactic(auto)]

ghost use Rattle.std.specs.Prelude.{◌≡◌, [], ◌∷◌, ◌++◌, ◌+◌, ◌-◌, ◌*◌, ◌≤◌, length, drop};
ghost use Rattle.rules.specs.Tape.{leg_bytes};
ghost use Rattle.rules.specs.Spelling.{little_endian, meant_from, messages_form};
ghost use Rattle.tape.specs.View.{header_of, uses_of};
ghost use Rattle.form.specs.Rows.{full, full_fourth, four, front_row, time_row, row_of, rows_from, row_at, lessers};
ghost use Rattle.form.specs.Writes.{Writes, bytes_at, counts_in, size_in, Holds, form_in, Formed};

use tape::{Fields, Header, Section, Uses};
use types::Refusal;

// The bytes of a leg and of a message record; those of a row for each kind, and of those before a clock's.
const LEG: usize = Section::LEG as usize;

const RECORD: usize = Section::MESSAGE as usize;

const ROWS: usize = RECORD * Uses::MOST_KIND as usize;

const BEFORE_CLOCK: usize = RECORD * (Fields::CLOCK - 1) as usize;

// ---- bytes, from an offset on; each function gives the offset behind what it wrote

// So many bytes of a tape, as they stand from an offset on. One by one, since a part of no bytes may start past the tape's end, where there is no slice.
fn put_part(out: &mut [u8], at: usize, tape: &[u8], from: usize, size: usize) -> usize
    requires { (at + size ≤ length out.old) × (size ≤ length tape.now - from) }
    ensures { Writes (bytes_at size from tape.now) size out at result }
{
    for i in 0..size {
        out[at + i] = tape[from + i];
    }
    at + size
}

// A number of 16 bits.
fn put_half(out: &mut [u8], at: usize, v: u16) -> usize
    requires { at + 2 ≤ length out.old }
    ensures { Writes (little_endian 2 v) 2 out at result }
{
    put_part(out, at, &v.to_le_bytes(), 0, 2)
}

// ---- the most that each byte of a message record may be in the form

// 255 where the field is used, 0 where it is not.
fn full(used: bool) -> u8
    ensures { result ≡ full used }
{
    if used { 255 } else { 0 }
}

// The fourth byte: "any auction wish written as 1".
fn full_fourth(kind: u8, used: bool) -> u8
    ensures { result ≡ full_fourth kind used }
{
    if kind == Fields::ORDER {
        return if used { 1 } else { 0 };
    }
    full(used)
}

// The four bytes of a number.
fn put_four(rows: &mut [u8], at: usize, used: bool) -> usize
    requires { at + 4 ≤ length rows.old }
    ensures { Writes (four used) 4 rows at result }
{
    put_part(rows, at, &[full(used); 4], 0, 4)
}

// Kind, side, account, wish or leg.
fn put_front(rows: &mut [u8], at: usize, kind: u8, u: Uses) -> usize
    requires { at + 4 ≤ length rows.old }
    ensures { Writes (front_row kind (uses_of u)) 4 rows at result }
{
    let side = full(u.side);
    let account = full(u.account);
    let fourth = full_fourth(kind, u.wishorleg);
    put_part(rows, at, &[255, side, account, fourth], 0, 4)
}

// Three numbers.
fn put_three(rows: &mut [u8], at: usize, a: bool, b: bool, c: bool) -> usize
    requires { at + 12 ≤ length rows.old }
    ensures { Writes (four a ++ (four b ++ four c)) 12 rows at result }
{
    let end = put_four(rows, at, a);
    let end = put_four(rows, end, b);
    put_four(rows, end, c)
}

// The time, which all kinds use.
fn put_time(rows: &mut [u8], at: usize) -> usize
    requires { at + 8 ≤ length rows.old }
    ensures { Writes time_row 8 rows at result }
{
    let end = put_four(rows, at, true);
    put_four(rows, end, true)
}

// A kind's row, by the fields that the reader's table says it uses.
fn put_row(rows: &mut [u8], at: usize, kind: u8) -> usize
    requires { at + 36 ≤ length rows.old }
    ensures { Writes (row_of kind) 36 rows at result }
{
    let u = tape::uses_of(kind);
    let end = put_front(rows, at, kind, u);
    let end = put_three(rows, end, u.id, u.participant, u.units);
    let end = put_three(rows, end, u.price, u.ask, u.asksize);
    put_time(rows, end)
}

// The rows of all kinds.
fn put_rows(rows: &mut [u8]) -> usize
    requires { 288 ≤ length rows.old }
    ensures { Writes (rows_from 8 1) 288 rows 0 result }
{
    let mut end = 0;
    for kind in Uses::LEAST_KIND..=Uses::MOST_KIND {
        end = put_row(rows, end, kind);
    }
    end
}

// Where a kind's row starts. As for the reader, a kind above 8 has that of 7, which uses nothing, and 0 that of 1.
fn row_at(kind: u8) -> usize
    ensures { result ≡ row_at kind }
{
    if Uses::MOST_KIND < kind {
        return BEFORE_CLOCK;
    }
    usize::from(kind.saturating_sub(1)) * RECORD
}

// ---- the messages

// A message record: each byte, or the most that it may be. Made in an array of its own, many bytes at a time, since a compiler cannot know that the buffer and the tape are apart.
fn put_message(
    out: &mut [u8],
    at: usize,
    tape: &[u8],
    from: usize,
    rows: &[u8],
    row: usize,
) -> usize
    requires { (at + 36 ≤ length out.old) × (from + 36 ≤ length tape.now) × (row + 36 ≤ length rows.now) }
    ensures { Writes (lessers 36 from tape.now row rows.now) 36 out at result }
{
    let mut bytes = [0u8; RECORD];
    for i in 0..RECORD {
        bytes[i] = tape[from + i].min(rows[row + i]);
    }
    put_part(out, at, &bytes, 0, RECORD)
}

// So many messages, whose records stand on the tape from an offset on.
fn put_messages(
    out: &mut [u8],
    at: usize,
    tape: &[u8],
    from: usize,
    count: usize,
    rows: &[u8],
) -> usize
    requires { (at + 36 * count ≤ length out.old) × (36 * count ≤ length tape.now - from) × (rows.now ≡ rows_from 8 1) }
    ensures { Writes (messages_form (meant_from count (drop from tape.now))) (36 * count) out at result }
{
    let mut end = at;
    for i in 0..count {
        let next = from + i * RECORD;
        let row = row_at(tape[next]);
        end = put_message(out, end, tape, next, rows, row);
    }
    end
}

// ---- the form

// Leg count, leg offset, message count, message offset: "legs at offset 40, messages straight after".
fn put_counts(out: &mut [u8], tape: &[u8], behind: u16) -> usize
    requires { (8 ≤ length out.old) × (6 ≤ length tape.now) }
    ensures { Writes (counts_in tape.now behind) 8 out 0 result }
{
    let end = put_part(out, 0, tape, 0, 2);
    let end = put_half(out, end, Header::BYTES as u16);
    let end = put_part(out, end, tape, 4, 2);
    put_half(out, end, behind)
}

// The bytes of the legs.
fn legs_size(h: Header) -> usize
    ensures { result ≡ (header_of h).leg_count * leg_bytes }
{
    h.legcount as usize * LEG
}

// The bytes of the form.
fn form_size(h: Header) -> usize
    ensures { result ≡ size_in (header_of h) }
{
    Header::BYTES + legs_size(h) + h.messagecount as usize * RECORD
}

// The form of a tape that has this header.
fn put_form(out: &mut [u8], tape: &[u8], h: Header, rows: &[u8]) -> usize
    requires { (size_in (header_of h) ≤ length out.old) × Holds (header_of h) tape.now × (rows.now ≡ rows_from 8 1) }
    ensures { Writes (form_in (header_of h) tape.now) (size_in (header_of h)) out 0 result }
{
    let legs = legs_size(h);
    let behind = (Header::BYTES + legs) as u16;
    let first = h.legoffset as usize;
    let next = h.messageoffset as usize;
    let count = h.messagecount as usize;
    let end = put_counts(out, tape, behind);
    let end = put_part(out, end, tape, 8, 32);
    let end = put_part(out, end, tape, first, legs);
    put_messages(out, end, tape, next, count, rows)
}

// "A writer .. that turns every tape the reader accepts into one form": at the start of the buffer, and how many bytes it has; what stands behind it is as it was. Or the row that turns the tape or the buffer back, and every byte is as it was.
pub fn write(tape: &[u8], out: &mut [u8]) -> Result<usize, Refusal>
    ensures { Formed tape out result }
{
    tape::refusal(tape)?;
    let h = tape::header_of(tape);
    if out.len() < form_size(h) {
        return Err(Refusal::ShortOutput);
    }
    let mut rows = [0u8; ROWS];
    put_rows(&mut rows);
    Ok(put_form(out, tape, h, &rows))
}
