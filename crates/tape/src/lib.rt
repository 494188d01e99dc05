// Document 01, "Tape": from bytes to an opening and messages. What is read past the end of a tape is 0.
#![tactic(auto)]

ghost use Rattle.std.specs.Prelude.{◌≡◌, ltb, drop};
ghost use Rattle.rules.specs.Basics.{pick};
ghost use Rattle.rules.specs.Messages.{order, cancel, reduce};
ghost use Rattle.rules.specs.Tape.{settings_of as settings_in, header_of as header_in, bytes_of, leg_of as leg_in, uses_of as uses_in, fields_of as fields_in, used_fields, local_of as local_in, national_of as national_in, terms_of, change_of as change_in, body_of as body_in, message_from, message_of as message_in, leg_section, message_section, is_misplaced, overlaps, is_damaged, is_kind, known_kinds, tape_refusal};
ghost use Rattle.types.specs.declared.Body.TheVariants.{Order as sent_order, Cancel as sent_cancel, Reduce as sent_reduce};
ghost use Rattle.types.specs.Refusals.{number_in};
ghost use Rattle.types.specs.View.{leg_of, settings_of, local_of, national_of, response_terms, change_of, body_of, message_of};
ghost use Rattle.tape.specs.View.{header_of, uses_of, fields_of, Reads, section_of, offset_after};

use types::{
    Amounts, Body, Cancel, Leg, Local, Message, Modify, National, Opening, Order, Reduce, Refusal,
    Response, Settings,
};

mod wire;

// ---- header

// "16-bit leg count, leg offset, message count, message offset, .."; then the settings.
#[derive(Clone, Copy)]
pub struct Header {
    pub legcount: u16,
    pub legoffset: u16,
    pub messagecount: u16,
    pub messageoffset: u16,
    pub settings: Settings,
}

impl Header {
    pub const BYTES: usize = 40;

    // Of the whole tape.
    pub const MOST_TAPE: usize = 65_535;
}

// "interval, distance, most legs, amounts for MPV 1, 5, 10; 32-bit minimum; 64-bit first number; 64-bit opening time".
fn settings_of(t: &[u8]) -> Settings
    ensures { settings_of result ≡ settings_in t.now }
{
    let amounts = Amounts {
        one: wire::half_at(t, 14),
        five: wire::half_at(t, 16),
        ten: wire::half_at(t, 18),
    };
    Settings {
        first: wire::long_at(t, 24),
        time: wire::long_at(t, 32),
        minimum: wire::word_at(t, 20),
        interval: wire::half_at(t, 8),
        distance: wire::half_at(t, 10),
        legs: wire::half_at(t, 12),
        amounts,
    }
}

// The header of a tape.
pub fn header_of(t: &[u8]) -> Header
    ensures { header_of result ≡ header_in t.now }
{
    let settings = settings_of(t);
    Header {
        legcount: wire::half_at(t, 0),
        legoffset: wire::half_at(t, 2),
        messagecount: wire::half_at(t, 4),
        messageoffset: wire::half_at(t, 6),
        settings,
    }
}

// ---- the fields that a kind uses

// A row of flags, but for the time, which all kinds use.
#[derive(Clone, Copy)]
pub struct Uses {
    pub side: bool,
    pub account: bool,
    pub wishorleg: bool,
    pub id: bool,
    pub participant: bool,
    pub units: bool,
    pub price: bool,
    pub ask: bool,
    pub asksize: bool,
}

impl Uses {
    pub const LEAST_KIND: u8 = Fields::LOCAL;

    pub const MOST_KIND: u8 = Fields::REDUCE;
}

// "1 adds leg, bid size, bid, ask, ask size".
const LOCAL: Uses = Uses {
    side: false,
    account: false,
    wishorleg: true,
    id: false,
    participant: false,
    units: true,
    price: true,
    ask: true,
    asksize: true,
};

// "2 leg, bid, ask".
const NATIONAL: Uses = Uses {
    side: false,
    account: false,
    wishorleg: true,
    id: false,
    participant: false,
    units: false,
    price: true,
    ask: true,
    asksize: false,
};

// "3 side, account, wish, id, participant, units, price".
const ORDER: Uses = Uses {
    side: true,
    account: true,
    wishorleg: true,
    id: true,
    participant: true,
    units: true,
    price: true,
    ask: false,
    asksize: false,
};

// "4 the same less wish".
const RESPONSE: Uses = Uses {
    side: true,
    account: true,
    wishorleg: false,
    id: true,
    participant: true,
    units: true,
    price: true,
    ask: false,
    asksize: false,
};

// "5 the same less wish and account".
const MODIFY: Uses = Uses {
    side: true,
    account: false,
    wishorleg: false,
    id: true,
    participant: true,
    units: true,
    price: true,
    ask: false,
    asksize: false,
};

// "6 id, participant".
const CANCEL: Uses = Uses {
    side: false,
    account: false,
    wishorleg: false,
    id: true,
    participant: true,
    units: false,
    price: false,
    ask: false,
    asksize: false,
};

// "7 nothing".
const CLOCK: Uses = Uses {
    side: false,
    account: false,
    wishorleg: false,
    id: false,
    participant: false,
    units: false,
    price: false,
    ask: false,
    asksize: false,
};

// M-105: 8 "uses id, participant, units".
const REDUCE: Uses = Uses {
    side: false,
    account: false,
    wishorleg: false,
    id: true,
    participant: true,
    units: true,
    price: false,
    ask: false,
    asksize: false,
};

// "A table of seven rows says which fields each kind uses", and an eighth since M-105; a table here too, since document 01 speaks of it as one.
const KINDS: [Uses; 8] = [
    LOCAL, NATIONAL, ORDER, RESPONSE, MODIFY, CANCEL, CLOCK, REDUCE,
];

// The row of a kind. A kind above 8 uses nothing; 0 is no kind either, and reads the first row. Each arm names its row, so that no table is laid out to look it up.
pub fn uses_of(kind: u8) -> Uses
    ensures { uses_of result ≡ uses_in kind }
{
    let rows = KINDS;
    match kind {
        0 | Fields::LOCAL => rows[0],
        Fields::NATIONAL => rows[1],
        Fields::ORDER => rows[2],
        Fields::RESPONSE => rows[3],
        Fields::MODIFY => rows[4],
        Fields::CANCEL => rows[5],
        Fields::REDUCE => rows[7],
        _ => rows[6],
    }
}

// ---- messages

// The fields of a message record. The fourth byte is an order's auction wish or a quote's leg; units and price are a quote's bid size and bid. Hosts hand it over, so the kind is a byte.
#[repr(C)]
#[derive(Clone, Copy)]
pub struct Fields {
    pub kind: u8,
    pub side: u8,
    pub account: u8,
    pub wishorleg: u8,
    pub id: u32,
    pub participant: u32,
    pub units: u32,
    pub price: i32,
    pub ask: i32,
    pub asksize: u32,
    pub time: u64,
}

impl Fields {
    // "Kinds: 1 local, 2 national, 3 order, 4 response, 5 modify, 6 cancel, 7 clock"; M-105: "kind 8, reduce".
    pub const LOCAL: u8 = 1;

    pub const NATIONAL: u8 = 2;

    pub const ORDER: u8 = 3;

    pub const RESPONSE: u8 = 4;

    pub const MODIFY: u8 = 5;

    pub const CANCEL: u8 = 6;

    pub const CLOCK: u8 = 7;

    pub const REDUCE: u8 = 8;
}

// "kind, side, account .., auction wish or leg from 0 ..; id, participant, units or bid size, price or bid, ask, ask size ..; 64-bit time".
pub fn fields_of(p: &[u8]) -> Fields
    ensures { fields_of result ≡ fields_in p.now }
{
    Fields {
        kind: wire::byte_at(p, 0),
        side: wire::byte_at(p, 1),
        account: wire::byte_at(p, 2),
        wishorleg: wire::byte_at(p, 3),
        id: wire::word_at(p, 4),
        participant: wire::word_at(p, 8),
        units: wire::word_at(p, 12),
        price: wire::signed_at(p, 16),
        ask: wire::signed_at(p, 20),
        asksize: wire::word_at(p, 24),
        time: wire::long_at(p, 28),
    }
}

// A field, if it is used, and else what stands for it.
fn if_used<T: Copy>(used: bool, x: T, none: T) -> T
    ensures { result ≡ pick used x none }
{
    if used { x } else { none }
}

// "others, and gaps, are ignored": a field that is not used reads as 0.
fn used_fields(u: Uses, f: Fields) -> Fields
    ensures { fields_of result ≡ used_fields (uses_of u) (fields_of f) }
{
    Fields {
        kind: f.kind,
        side: if_used(u.side, f.side, 0),
        account: if_used(u.account, f.account, 0),
        wishorleg: if_used(u.wishorleg, f.wishorleg, 0),
        id: if_used(u.id, f.id, 0),
        participant: if_used(u.participant, f.participant, 0),
        units: if_used(u.units, f.units, 0),
        price: if_used(u.price, f.price, 0),
        ask: if_used(u.ask, f.ask, 0),
        asksize: if_used(u.asksize, f.asksize, 0),
        time: f.time,
    }
}

// A local quote's fields. Here and below each is named: a record's fields and a body's are structs of their own, and `..` takes the rest from the same struct only.
impl From<Fields> for Local {
    ghost from_gives = { λ f quote. local_of quote ≡ local_in (fields_of f) };

    fn from(f: Fields) -> Local {
        Local {
            leg: f.wishorleg,
            bidsize: f.units,
            bid: f.price,
            ask: f.ask,
            asksize: f.asksize,
        }
    }
}

// A national quote's.
impl From<Fields> for National {
    ghost from_gives = { λ f quote. national_of quote ≡ national_in (fields_of f) };

    fn from(f: Fields) -> National {
        National {
            leg: f.wishorleg,
            bid: f.price,
            ask: f.ask,
        }
    }
}

// An order's; "wish 0 no, otherwise yes".
impl From<Fields> for Order {
    ghost from_gives = { λ f sent. body_of (sent_order sent) ≡ order (terms_of (fields_of f)) (ltb 0 f.wishorleg) };

    fn from(f: Fields) -> Order {
        Order {
            side: f.side,
            account: f.account,
            wish: 0 < f.wishorleg,
            id: f.id,
            participant: f.participant,
            units: f.units,
            price: f.price,
        }
    }
}

// A response's.
impl From<Fields> for Response {
    ghost from_gives = { λ f sent. response_terms sent ≡ terms_of (fields_of f) };

    fn from(f: Fields) -> Response {
        Response {
            side: f.side,
            account: f.account,
            id: f.id,
            participant: f.participant,
            units: f.units,
            price: f.price,
        }
    }
}

// A modification's.
impl From<Fields> for Modify {
    ghost from_gives = { λ f sent. change_of sent ≡ change_in (fields_of f) };

    fn from(f: Fields) -> Modify {
        Modify {
            side: f.side,
            id: f.id,
            participant: f.participant,
            units: f.units,
            price: f.price,
        }
    }
}

// A cancellation's.
impl From<Fields> for Cancel {
    ghost from_gives = { λ f sent. body_of (sent_cancel sent) ≡ cancel f.id f.participant };

    fn from(f: Fields) -> Cancel {
        Cancel {
            id: f.id,
            participant: f.participant,
        }
    }
}

// A reduction's; its units are "the new open units".
impl From<Fields> for Reduce {
    ghost from_gives = { λ f sent. body_of (sent_reduce sent) ≡ reduce f.id f.participant f.units };

    fn from(f: Fields) -> Reduce {
        Reduce {
            id: f.id,
            participant: f.participant,
            units: f.units,
        }
    }
}

// The body of a kind.
impl From<Fields> for Body {
    ghost from_gives = { λ f body. body_of body ≡ body_in (fields_of f) };

    fn from(f: Fields) -> Body {
        match f.kind {
            Fields::LOCAL => Body::Local(Local::from(f)),
            Fields::NATIONAL => Body::National(National::from(f)),
            Fields::ORDER => Body::Order(Order::from(f)),
            Fields::RESPONSE => Body::Response(Response::from(f)),
            Fields::MODIFY => Body::Modify(Modify::from(f)),
            Fields::CANCEL => Body::Cancel(Cancel::from(f)),
            Fields::REDUCE => Body::Reduce(Reduce::from(f)),
            _ => Body::Clock,
        }
    }
}

// The message that a record's fields make.
pub fn message_from(f: Fields) -> Message
    ensures { message_of result ≡ message_from (fields_of f) }
{
    let used = used_fields(uses_of(f.kind), f);
    Message {
        time: used.time,
        body: Body::from(used),
    }
}

// The message of the part of the tape that starts at its record.
pub fn message_of(p: &[u8]) -> Message
    ensures { message_of result ≡ message_in p.now }
{
    message_from(fields_of(p))
}

// ---- legs

// A leg's symbol. Byte by byte, since a byte past the end is 0 and a part that is too short cannot be copied whole.
fn symbol_of(p: &[u8]) -> [u8; 21]
    ensures { result ≡ bytes_of 21 p.now }
{
    let mut s = [0u8; 21];
    for i in 0..21 {
        s[i] = wire::byte_at(p, i as u32);
    }
    s
}

// "symbol, side, ratio, MPV", of the part of the tape that starts at the record.
pub fn leg_of(p: &[u8]) -> Leg
    ensures { leg_of result ≡ leg_in p.now }
{
    let symbol = symbol_of(p);
    Leg {
        symbol,
        side: wire::byte_at(p, 21),
        ratio: wire::byte_at(p, 22),
        mpv: wire::byte_at(p, 23),
    }
}

// ---- sections

// The bytes of a section: where they start, and how many they are; no `Range`, since `section_of` and the rules' `is_misplaced` and `overlaps` speak of a start and a size.
#[derive(Clone, Copy)]
pub struct Section {
    pub start: u32,
    pub size: u32,
}

impl Section {
    // "Legs are 24 bytes".
    pub const LEG: u32 = 24;

    // "Messages are 36".
    pub const MESSAGE: u32 = 36;
}

// The legs' section.
fn leg_section(h: Header) -> Section
    ensures { section_of result ≡ leg_section (header_of h) }
{
    let start = h.legoffset as u32;
    let size = h.legcount as u32 * Section::LEG;
    Section { start, size }
}

// The messages' section.
fn message_section(h: Header) -> Section
    ensures { section_of result ≡ message_section (header_of h) }
{
    let start = h.messageoffset as u32;
    let size = h.messagecount as u32 * Section::MESSAGE;
    Section { start, size }
}

// "a section that is not empty overlapping the header .., or running past the end".
fn is_misplaced(s: Section, bytes: usize) -> bool
    ensures { result ≡ is_misplaced (section_of s) bytes }
{
    let start = s.start as usize;
    let size = s.size as usize;
    (0 < size) & ((start < Header::BYTES) | (bytes < start + size))
}

// "overlapping .. the other section": a byte is in both.
fn overlap(a: Section, b: Section) -> bool
    ensures { result ≡ overlaps (section_of a) (section_of b) }
{
    let first = a.start as usize;
    let firstsize = a.size as usize;
    let second = b.start as usize;
    let secondsize = b.size as usize;
    let some = (0 < firstsize) & (0 < secondsize);
    some & (first < second + secondsize) & (second < first + firstsize)
}

// "60 tape under 40 or over 65,535 bytes, or a section that is not empty overlapping the header or the other section, or running past the end".
fn is_damaged(t: &[u8]) -> bool
    ensures { result ≡ is_damaged t.now }
{
    let bytes = t.len();
    let h = header_of(t);
    let legs = leg_section(h);
    let messages = message_section(h);
    let sized = (Header::BYTES <= bytes) & (bytes <= Header::MOST_TAPE);
    !sized | is_misplaced(legs, bytes) | is_misplaced(messages, bytes) | overlap(legs, messages)
}

// One of the eight kinds.
pub fn is_kind(kind: u8) -> bool
    ensures { result ≡ is_kind kind }
{
    (Uses::LEAST_KIND..=Uses::MOST_KIND).contains(&kind)
}

// Whether the kinds of so many message records are all known.
fn known_kinds(t: &[u8], offset: u16, count: u16) -> bool
    ensures { result ≡ known_kinds count (drop offset t.now) }
{
    for i in 0..count as u32 {
        if !is_kind(wire::byte_at(t, offset as u32 + i * Section::MESSAGE)) {
            return false;
        }
    }
    true
}

// The row that turns a tape back: 60 damaged; "61 any message's kind not below".
pub fn refusal(t: &[u8]) -> Result<(), Refusal>
    ensures { number_in result ≡ tape_refusal t.now }
{
    if is_damaged(t) {
        return Err(Refusal::Damaged);
    }
    let h = header_of(t);
    let known = known_kinds(t, h.messageoffset, h.messagecount);
    if known { Ok(()) } else { Err(Refusal::Kind) }
}

// ---- parts of the tape

// The leg at an offset: "handed on as the part of the tape that starts at its offset".
pub fn leg_at(tape: &[u8], at: usize) -> Leg
    ensures { leg_of result ≡ leg_in (drop at tape.now) }
{
    leg_of(&tape[at.min(tape.len())..])
}

// The message at an offset.
pub fn message_at(tape: &[u8], at: usize) -> Message
    ensures { message_of result ≡ message_in (drop at tape.now) }
{
    message_of(&tape[at.min(tape.len())..])
}

// The opening of a header and of legs that stand from an offset on: four are read, whatever the count. With more it is refused as the tape's own is.
pub fn strategy_from(t: &[u8], at: u16) -> Opening
    ensures { Reads at t.now result }
{
    let h = header_of(t);
    let size = Section::LEG as usize;
    let first = at as usize;
    let second = first + size;
    let third = second + size;
    let legs = [
        leg_at(t, first),
        leg_at(t, second),
        leg_at(t, third),
        leg_at(t, third + size),
    ];
    let count = h.legcount as usize;
    let settings = h.settings;
    Opening {
        legs,
        count,
        settings,
    }
}

// The opening that a tape holds.
pub fn strategy_of(t: &[u8]) -> Opening
    ensures { Reads (header_in t.now).leg_offset t.now result }
{
    let h = header_of(t);
    strategy_from(t, h.legoffset)
}

// ---- the reader

// "The tape reader carries the tape with its position from record to record."
#[derive(Clone, Copy)]
pub struct TapeReader<'a> {
    pub tape: &'a [u8],
    pub at: usize,
}

// A message, and the offset behind its record.
#[derive(Clone, Copy)]
pub struct Taken {
    pub message: Message,
    pub next: usize,
}

// The offset behind the message record at an offset, the tape's end at the latest.
fn offset_after(tape: &[u8], at: usize) -> usize
    ensures { result ≡ offset_after tape.now at }
{
    let size = Section::MESSAGE as usize;
    at.saturating_add(size).min(tape.len())
}

// The message at the reader's offset.
pub fn current<'a>(r: TapeReader<'a>) -> Message
    ensures { message_of result ≡ message_in (drop r.entry.at r.entry.tape.now) }
{
    message_at(r.tape, r.at)
}

// The same tape, behind that message.
pub fn after<'a>(r: TapeReader<'a>) -> TapeReader<'a>
    ensures { (result.tape ≡ r.entry.tape) × (result.at ≡ offset_after r.entry.tape.now r.entry.at) }
{
    let at = offset_after(r.tape, r.at);
    TapeReader { tape: r.tape, at }
}

// The message at an offset, and the offset behind it.
pub fn take_message(tape: &[u8], at: usize) -> Taken
    ensures { (message_of result.message ≡ message_in (drop at tape.now)) × (result.next ≡ offset_after tape.now at) }
{
    let r = TapeReader { tape, at };
    Taken {
        message: current(r),
        next: after(r).at,
    }
}
