// Document 01, "Tape", and M-102: what tapeprint prints, through a page.
#![tactic(auto)]

ghost use Rattle.std.specs.Prelude.{◌≡◌, ◌+◌, length, drop};
ghost use Rattle.rules.specs.Tape.{messages_from};
ghost use Rattle.rules.specs.Print.{title_line, lines_from};
ghost use Rattle.state.specs.View.{state_of};
ghost use Rattle.text.specs.Text.{line_text, lines_text};
ghost use Rattle.session.specs.Lines.{tape_text};
ghost use Rattle.output.specs.Counted.{counted};

use records::Record;
use session::{Cursor, Start};
use state::{Longs, State, Words};
use types::Fill;

// The numbers of 2,000 fill records.
const NUMBERS: usize = Record::NUMBERS * Fill::LEAST_ROOM;

// A page is full behind so many bytes, and has room for a message then: 2,000 records and as many averages, of at most 128 bytes each.
const FULL: usize = 128_000;

const PAGE: usize = 640_000;

// An empty page, made by a function of its own, so that no proof spells its bytes out.
fn blank_page() -> [u8; PAGE] {
    [0; PAGE]
}

// The title, the messages of a tape that is not turned back, and the last line; how many bytes they are.
fn print_messages(
    longs: &mut Longs,
    words: &mut Words,
    list: &mut [u64; NUMBERS],
    page: &mut [u8; PAGE],
    tape: &[u8],
    b: Start,
) -> u64
    ensures { result ≡ counted (length (line_text title_line) + length (lines_text (lines_from 1 (state_of longs.old words.old) (messages_from b.count (drop b.at tape.now))))) }
{
    let count = b.count;
    let at = session::put_title(page, 0);
    let mut p = Cursor {
        position: 0,
        next: b.at,
        at,
    };
    let mut total: u64 = 0;
    // No `for`: a page has as many messages as fit, and `session::run` counts them.
    while p.position < count {
        p = session::run(longs, words, list, page, tape, count, p, FULL);
        let end = p.at;
        let h = output::hand_over(&page[..end], total);
        total = h.bytes;
        p.at = 0;
    }
    let n = session::put_last(words, page, p.at);
    let last = output::hand_over(&page[..n], total);
    last.bytes
}

// Every line of a tape, and how many bytes they are.
pub fn print_tape(tape: &[u8]) -> u64
    ensures { result ≡ counted (length (tape_text tape.now)) }
{
    let mut page = blank_page();
    let mut longs = [0u64; State::LONGS];
    let mut words = [0u32; State::WORDS];
    let mut list = [0u64; NUMBERS];
    match session::begin(&mut longs, &mut words, tape) {
        Ok(b) => print_messages(&mut longs, &mut words, &mut list, &mut page, tape, b),
        Err(back) => {
            let n = session::put_refused(&mut page, 0, 0, u32::from(back.row));
            let h = output::hand_over(&page[..n], 0);
            h.bytes
        }
    }
}
