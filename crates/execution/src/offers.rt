// Document 01, "Execution": the interest open to an order, read from the state and written in slots: a tier and units for each.
// Slot 0 is the legs in rank L, slot 1 the legs in rank T, slot k + 2 the entry at place k of the book.
ghost use Rattle.std.specs.Prelude.{◌≡◌, ◌&&◌, not, List, ℕ, ◌+◌, ◌*◌, ◌<◌, ◌≤◌, leb, length, get_or};
ghost use Rattle.rules.specs.Basics.{pick};
ghost use Rattle.rules.specs.Prices.{most_biased};
ghost use Rattle.rules.specs.Book.{same_side};
ghost use Rattle.rules.specs.State.{contra_price};
ghost use Rattle.rules.specs.Turn.{key_of, rank_number};
ghost use Rattle.rules.specs.Execution.{opens, rank_of, legs_lead, inside};
ghost use Rattle.types.specs.View as V;
ghost use Rattle.types.specs.View.{stage_of, derived_of};
ghost use Rattle.state.specs.Layout as L;
ghost use Rattle.state.specs.View.{flag, entry_at, open_count, auction_of, state_of};
ghost use Rattle.execution.specs.Reach.{at_or_through};
ghost use Rattle.execution.specs.Slots.{mode_of, rules_mode, slot_offers, Ranked, book_offer, Stand};

use super::kept;
use state::{Book, Longs, Stage, Words};
use types::{Derived, Order, Rank};

// "A turn is each execution there: from the queue, on going live, in the legs' pass".
#[derive(Clone, Copy)]
pub enum Mode {
    FromQueue,
    GoingLive,
    LegsPass,
}

// The mode of a number: each number has one.
impl From<u8> for Mode {
    ghost from_gives = { λ n m. rules_mode m ≡ mode_of n };

    fn from(n: u8) -> Mode {
        match n {
            0 => Mode::FromQueue,
            1 => Mode::GoingLive,
            _ => Mode::LegsPass,
        }
    }
}

// The slots of the legs in rank L and in rank T, and the first of the book's.
#[derive(Drop)]
pub struct Slot {}

impl Slot {
    pub const LEAD: usize = 0;

    pub const LATE: usize = 1;

    pub const BOOK: usize = 2;
}

// The interest open to an order: the tier and the units of each slot, the first `count` of them in use.
// Two arrays, not one of pairs: a tier that is given whole is given the units as they stand here.
#[derive(Drop)]
pub struct Slots {
    pub tiers: [u32; 66],
    pub units: [u32; 66],
    pub count: usize,
}

// The greatest biased price.
const MOST_BIASED: u64 = 2 * Order::MOST_CENTS as u64;

// ---- prices

// What a unit costs an order at a price: lower is better, for a seller too.
fn key(buy: bool, price: u64) -> u32
    ensures { (result ≡ key_of buy price) × (result ≤ most_biased) }
{
    let p = price.min(MOST_BIASED);
    if buy {
        p as u32
    } else {
        (MOST_BIASED - p) as u32
    }
}

// "Price by price, best first", and at one price rank by rank.
fn tier(buy: bool, price: u64, rank: Rank) -> u32
    ensures { result ≡ key_of buy price * 8 + rank_number (V.rank_of rank) }
{
    key(buy, price) * 8 + rank as u32
}

// Whether a price is within a limit.
fn is_within(buy: bool, price: u64, limit: u32) -> bool
    ensures { result ≡ leb (key_of buy price) (key_of buy limit) }
{
    key(buy, price) <= key(buy, u64::from(limit))
}

// Whether a limit is "at or through" a derived price that exists.
pub fn at_or_through(buy: bool, limit: u32, d: Derived) -> bool
    ensures { result ≡ at_or_through buy limit (derived_of d) }
{
    let within = is_within(buy, d.price, limit);
    (0 < d.units) & within
}

// The units at a price "within the limit", whose key is given: beyond it, none.
fn within(buy: bool, price: u64, last: u32, units: u32) -> u32
    ensures { result ≡ pick (leb (key_of buy price) last) units 0 }
{
    if key(buy, price) <= last { units } else { 0 }
}

// ---- the legs

// How many units of the legs' price are of rank L, "and the remaining units are T"; "Outside an auction: L".
fn legs_lead(longs: &Longs, words: &Words, mode: Mode, buy: bool, d: Derived) -> u32
    ensures { result ≡ legs_lead (rules_mode mode) (auction_of longs.now words.now) buy (derived_of d) }
{
    match mode {
        Mode::FromQueue => kept::leading(longs, words, buy, d),
        Mode::GoingLive | Mode::LegsPass => d.units,
    }
}

// The units of the legs within a limit.
pub fn legs_units(buy: bool, limit: u32, d: Derived) -> u32
    ensures { result ≡ pick (leb (key_of buy d.price) (key_of buy limit)) d.units 0 }
{
    let last = key(buy, u64::from(limit));
    within(buy, d.price, last, d.units)
}

// ---- the book

// "C, customer orders and responses; N, non-customer ones"; outside an auction R.
fn entry_rank(mode: Mode, customer: bool) -> Rank
    ensures { V.rank_of result ≡ rank_of (rules_mode mode) customer }
{
    match mode {
        Mode::FromQueue => if customer { Rank::C } else { Rank::N },
        Mode::GoingLive | Mode::LegsPass => Rank::R,
    }
}

// The tier of the entry at place i of the book.
fn entry_tier(words: &Words, mode: Mode, buy: bool, i: usize) -> u32
    requires { i < 64 }
    ensures { result ≡ key_of buy (get_or words.now (L.prices + i) 0) * 8 + rank_number (rank_of (rules_mode mode) (flag (get_or words.now (L.customers + i) 0))) }
{
    let price = u64::from(words[Book::PRICES + i]);
    let customer = state::is_set(words[Book::CUSTOMERS + i]);
    tier(buy, price, entry_rank(mode, customer))
}

// "Open to a queue order: legs, live and held opposite orders, opposite responses. Open to a held order: legs and live opposite orders. In the legs' pass: legs."
fn opens(mode: Mode, stage: u32) -> bool
    ensures { result ≡ opens (rules_mode mode) (stage_of stage) }
{
    match mode {
        Mode::FromQueue => stage != Stage::QUEUED,
        Mode::GoingLive => stage == Stage::LIVE,
        Mode::LegsPass => false,
    }
}

// The units of an opposite entry at such a stage, none of another.
fn open_units(mode: Mode, buy: bool, other: bool, stage: u32, units: u32) -> u32
    ensures { result ≡ pick (opens (rules_mode mode) (stage_of stage) && not (same_side buy other)) units 0 }
{
    if opens(mode, stage) & !book::same_side(buy, other) {
        units
    } else {
        0
    }
}

// The units of the entry at place i of the book that are open to an order within its limit, whose key is given.
fn entry_units(words: &Words, mode: Mode, buy: bool, last: u32, i: usize) -> u32
    requires { i < 64 }
    ensures { result ≡ pick (leb (key_of buy (get_or words.now (L.prices + i) 0)) last)
        (pick (opens (rules_mode mode) (stage_of (get_or words.now (L.stages + i) 0)) && not (same_side buy (flag (get_or words.now (L.buys + i) 0)))) (get_or words.now (L.units + i) 0) 0) 0 }
{
    let price = u64::from(words[Book::PRICES + i]);
    let other = state::is_set(words[Book::BUYS + i]);
    let units = open_units(
        mode,
        buy,
        other,
        words[Book::STAGES + i],
        words[Book::UNITS + i],
    );
    within(buy, price, last, units)
}

// The interest of the book that is open to the order at place k within its limit, the entry at place i in slot i + 2.
fn book_interest(words: &Words, mode: Mode, k: usize, slots: &mut Slots)
    requires { k < 64 }
    ensures { (slots.new.count ≡ open_count words.now + 2) × (length slots.new.tiers ≡ 66) × (length slots.new.units ≡ 66)
        × ((longs : List ℕ) → Stand (book_offer (rules_mode mode) longs words.now k) (open_count words.now) slots.new.tiers slots.new.units) }
{
    let m = state::open_count(words);
    let buy = state::is_set(words[Book::BUYS + k]);
    let last = key(buy, u64::from(words[Book::PRICES + k]));
    for i in 0..m {
        slots.tiers[i + Slot::BOOK] = entry_tier(words, mode, buy, i);
        slots.units[i + Slot::BOOK] = entry_units(words, mode, buy, last, i);
    }
    slots.count = m + Slot::BOOK;
}

// ---- both

// The interest open to the order at place k within its limit, as its turn begins: the legs at their derived price in both ranks, then the book by arrival.
// Filled in place: a result of this size would be copied.
pub fn interest(longs: &Longs, words: &Words, mode: Mode, k: usize, d: Derived, slots: &mut Slots)
    requires { (k < 64)
        × (derived_of d ≡ contra_price (state_of longs.now words.now) (entry_at longs.now words.now k).buy) }
    ensures { (slots.new.count ≡ open_count words.now + 2) × Ranked slots.new.count slots.new.tiers
        × (slot_offers longs.now words.now d.price slots.new
        ≡ inside (rules_mode mode) (state_of longs.now words.now) (entry_at longs.now words.now k)) }
{
    book_interest(words, mode, k, slots);
    let buy = state::is_set(words[Book::BUYS + k]);
    let last = key(buy, u64::from(words[Book::PRICES + k]));
    let lead = legs_lead(longs, words, mode, buy, d);
    slots.tiers[Slot::LEAD] = tier(buy, d.price, Rank::L);
    slots.units[Slot::LEAD] = within(buy, d.price, last, lead);
    slots.tiers[Slot::LATE] = tier(buy, d.price, Rank::T);
    slots.units[Slot::LATE] = within(buy, d.price, last, d.units.saturating_sub(lead));
}
