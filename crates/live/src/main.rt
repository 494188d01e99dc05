// live: a copy of the engine over pipes. It reads a header and its legs on standard input and answers the opening; then it reads what message records there are and answers them at once, until the input ends.
#![tactic(auto)]

ghost use Rattle.std.specs.Prelude.{◌≤◌, ◌<◌, length};
ghost use Rattle.live.specs.Lives.{Reads, Answers, Rounds, Lives, Runs};

use feed::Cursor;
use output::STDOUT;
use records::Record;
use state::{Longs, State, Words};
use std::io::{Read, Stdin};
use tape::{Header, Section};
use types::{Fill, Opening, Refusal};

// The number by which the system knows standard input.
const STDIN: i32 = 0;

// The bytes of a header, of a leg and of a message record; the legs that are kept; the numbers of 2,000 fill records.
const HEADER: usize = Header::BYTES;

const LEG: usize = Section::LEG as usize;

const RECORD: usize = Section::MESSAGE as usize;

const LEGS: usize = Opening::MOST_LEGS;

const NUMBERS: usize = Record::NUMBERS * Fill::LEAST_ROOM;

// A page is full behind so many bytes, and has room for an answer then: 6,001 lines of at most 128 bytes.
const FULL: usize = 128_000;

const PAGE: usize = 896_128;

// Room for 1,820 records.
const INPUT: usize = 65_520;

// Room for a header and the legs that are kept.
const HEAD: usize = HEADER + LEGS * LEG;

// The answers to the whole records of an input: how many were given, how many bytes they have, and whether the system took them.
#[derive(Clone, Copy)]
struct Burst {
    pub answered: usize,
    pub bytes: u64,
    pub going: bool,
}

// The same of one read, and how many bytes of a record are left.
#[derive(Clone, Copy)]
struct Round {
    pub left: usize,
    pub answered: usize,
    pub bytes: u64,
    pub going: bool,
}

// The records that were answered, and the bytes of their answers.
#[derive(Clone, Copy)]
struct Total {
    pub records: u64,
    pub bytes: u64,
}

impl Total {
    // No copy reads so often: in three years that would be a hundred million times a second.
    pub const MOST_READS: u64 = 10_000_000_000_000_000;
}

// An empty page; this and the next are functions of their own, so that no proof spells their bytes out.
fn blank_page() -> [u8; PAGE] {
    [0; PAGE]
}

// An empty input.
fn blank_input() -> [u8; INPUT] {
    [0; INPUT]
}

// ---- what is written

// The answer to an opening; whether the system took it.
fn say_opening(opened: Result<(), Refusal>) -> bool {
    let mut line = [0u8; 128];
    let n = text::put_opening(&mut line, types::number_in(opened));
    io::write_all(STDOUT, &line[..n])
}

// The input ends inside the header, the legs or a record.
fn say_incomplete() {
    io::write_all(STDOUT, b"incomplete\n");
}

// ---- the opening

// A leg that is not looked at; whether it was there.
fn skip_leg() -> bool {
    let mut leg = [0u8; LEG];
    io::read_full(STDIN, &mut leg) == LEG
}

// So many of them.
fn skip_legs(count: usize) -> bool {
    for _ in 0..count {
        if !skip_leg() {
            return false;
        }
    }
    true
}

// The header, and the legs behind it, of which four are kept; whether all were there.
fn read_opening(head: &mut [u8; HEAD]) -> bool {
    if io::read_full(STDIN, &mut head[0..HEADER]) < HEADER {
        return false;
    }
    let h = tape::header_of(head);
    let count = h.legcount as usize;
    let kept = count.min(LEGS);
    let end = HEADER + LEG * kept;
    if io::read_full(STDIN, &mut head[HEADER..end]) < LEG * kept {
        return false;
    }
    skip_legs(count - kept)
}

// ---- the messages

// What the system has, as far as there is room; 0 at the end of the input, or where a read fails.
fn read_some(room: &mut [u8], mut stdin: Stdin) -> usize
    ensures { result ≤ length room.new }
{
    stdin.read(room).unwrap_or(0)
}

// The same behind the bytes that are left of a record.
fn read_behind(input: &mut [u8], left: usize, stdin: Stdin) -> usize
    requires { left < length input.old }
    ensures { Reads input left result }
{
    read_some(&mut input[left..], stdin)
}

// The whole records of an input, answered through a page, which is handed to the system when it is full and behind the last record.
fn answer_all(
    longs: &mut Longs,
    words: &mut Words,
    list: &mut [u64; NUMBERS],
    page: &mut [u8; PAGE],
    input: &[u8],
) -> Burst
    ensures { Answers longs words input result }
{
    let count = input.len() / RECORD;
    let mut p = Cursor { position: 0, at: 0 };
    let mut bytes: u64 = 0;
    // No `for`: a page has as many answers as fit, and `feed::run` counts them.
    while p.position < count {
        p = feed::run(longs, words, list, page, input, p, FULL);
        let end = p.at;
        let h = output::hand_over(&page[..end], bytes);
        bytes = h.bytes;
        if !h.taken {
            return Burst {
                answered: p.position,
                bytes,
                going: false,
            };
        }
        p.at = 0;
    }
    Burst {
        answered: p.position,
        bytes,
        going: true,
    }
}

// One read, behind the bytes that are left of a record, and the answers to every whole record that is there then.
fn hear(
    longs: &mut Longs,
    words: &mut Words,
    list: &mut [u64; NUMBERS],
    page: &mut [u8; PAGE],
    input: &mut [u8; INPUT],
    left: usize,
    stdin: Stdin,
) -> Round
    requires { left < 65520 }
    ensures { Rounds longs words input left result }
{
    let got = read_behind(input, left, stdin);
    if got == 0 {
        if 0 < left {
            say_incomplete();
        }
        return Round {
            left,
            answered: 0,
            bytes: 0,
            going: false,
        };
    }
    let end = left + got;
    let b = answer_all(longs, words, list, page, &input[..end]);
    let start = RECORD * b.answered;
    input.copy_within(start..end, 0);
    Round {
        left: end - start,
        answered: b.answered,
        bytes: b.bytes,
        going: b.going,
    }
}

// Read after read.
fn listen(
    longs: &mut Longs,
    words: &mut Words,
    list: &mut [u64; NUMBERS],
    page: &mut [u8; PAGE],
    input: &mut [u8; INPUT],
    stdin: Stdin,
) -> Total
    ensures { Lives longs words result }
{
    let mut left = 0;
    let mut records: u64 = 0;
    let mut bytes: u64 = 0;
    for reads in 0..Total::MOST_READS {
        let t = hear(longs, words, list, page, input, left, stdin);
        left = t.left;
        records += t.answered as u64;
        bytes = output::count_up(bytes, t.bytes as usize);
        if !t.going {
            return Total { records, bytes };
        }
    }
    Total { records, bytes }
}

// The same with a page and an input of its own.
fn serve(longs: &mut Longs, words: &mut Words, list: &mut [u64; NUMBERS], stdin: Stdin) -> Total
    ensures { Lives longs words result }
{
    let mut page = blank_page();
    let mut input = blank_input();
    listen(longs, words, list, &mut page, &mut input, stdin)
}

// An opening, and the records behind it.
fn run(
    longs: &mut Longs,
    words: &mut Words,
    list: &mut [u64; NUMBERS],
    head: &[u8],
    stdin: Stdin,
) -> Total
    ensures { Runs longs words head.now result }
{
    let opened = feed::open(longs, words, head);
    let said = say_opening(opened);
    if said & opened.is_ok() {
        return serve(longs, words, list, stdin);
    }
    Total {
        records: 0,
        bytes: 0,
    }
}

fn main(rt: HostRuntime) {
    let mut head = [0u8; HEAD];
    if !read_opening(&mut head) {
        say_incomplete();
        return;
    }
    let mut longs = [0u64; State::LONGS];
    let mut words = [0u32; State::WORDS];
    let mut list = [0u64; NUMBERS];
    run(&mut longs, &mut words, &mut list, &head, rt.stdin());
}
