// One strategy's state in two lent slices: longs of 64 bits and words of 32 bits.
// Where a number stands is a constant of the thing that it belongs to. What the slices stand for in the rules is their view, `state_of` in specs/View.antt: every value of every word has a meaning there.
#![tactic(auto)]

ghost use Rattle.std.specs.Prelude.{◌≡◌};
ghost use Rattle.rules.specs.State.{is_pending};
ghost use Rattle.state.specs.View.{flag, open_count, leg_count};
ghost use Rattle.state.specs.Lent.{Tells};

// The sizes of the two slices.
#[derive(Drop)]
pub struct State {}

impl State {
    pub const LONGS: usize = 71;

    pub const WORDS: usize = 580;
}

// The slices of those sizes.
pub type Longs = [u64; State::LONGS];

pub type Words = [u32; State::WORDS];

// The open orders and responses in arrival order, a column of 64 places for each field; the places in use are the first COUNT.
#[derive(Drop)]
pub struct Book {}

impl Book {
    // In the longs.
    pub const ARRIVALS: usize = 0;

    // In the words.
    pub const IDS: usize = 0;

    pub const PARTICIPANTS: usize = 64;

    pub const PRICES: usize = 128;

    pub const UNITS: usize = 192;

    pub const BUYS: usize = 256;

    pub const CUSTOMERS: usize = 320;

    pub const STAGES: usize = 384;

    pub const COUNT: usize = 448;

    pub const MOST_ORDERS: usize = 32;

    pub const MOST_RESPONSES: usize = 32;

    pub const MOST_ENTRIES: usize = 64;
}

// A quote for each leg, a column of 4 places for each field; price and size both 0 for an absent side.
#[derive(Drop)]
pub struct Market {}

impl Market {
    pub const BIDS: usize = 449;

    pub const BID_SIZES: usize = 453;

    pub const ASKS: usize = 457;

    pub const ASK_SIZES: usize = 461;

    pub const NATIONAL_BIDS: usize = 465;

    pub const NATIONAL_ASKS: usize = 469;
}

// The legs, a column of 4 places for each field but the symbols, which have a word for each byte.
#[derive(Drop)]
pub struct Legs {}

impl Legs {
    pub const SIDES: usize = 473;

    pub const RATIOS: usize = 477;

    pub const MPVS: usize = 481;

    pub const COUNT: usize = 485;

    pub const SYMBOLS: usize = 496;

    pub const SYMBOL_BYTES: usize = 21;

    pub const MOST: usize = 4;

    // A ratio above it counts as that.
    pub const MOST_RATIO: u32 = 9;
}

// The class settings.
#[derive(Drop)]
pub struct Settings {}

impl Settings {
    pub const MINIMUM: usize = 486;

    pub const INTERVAL: usize = 487;

    pub const DISTANCE: usize = 488;

    pub const MOST_LEGS: usize = 489;

    // For MPV 1, 5 and 10, one after another.
    pub const AMOUNTS: usize = 490;

    // In the longs.
    pub const FIRST_NUMBER: usize = 69;

    pub const OPENING_TIME: usize = 70;
}

// The auction; its other words count while PENDING is not 0.
#[derive(Drop)]
pub struct Auction {}

impl Auction {
    pub const PENDING: usize = 493;

    pub const BUY: usize = 494;

    // The units of what is kept of the legs.
    pub const START_UNITS: usize = 495;

    // In the longs.
    pub const DEADLINE: usize = 66;

    // The price of what is kept of the legs.
    pub const START_PRICES: usize = 67;

    // How many prices are kept, 0 or 1; a greater number counts as 1.
    pub const START_COUNT: usize = 68;
}

// The next arrival number and the last accepted time, in the longs.
#[derive(Drop)]
pub struct Clock {}

impl Clock {
    pub const NEXT: usize = 64;

    pub const TIME: usize = 65;

    pub const MOST_NUMBER: u64 = 1_000_000_000_000_000;

    // A time above it counts as that.
    pub const MOST_TIME: u64 = 1_000_000_000_000_000;
}

// The numbers of the stages; every number above the last is a response too.
// No enum: hosts keep the words, and every value of a word has a meaning.
#[derive(Drop)]
pub struct Stage {}

impl Stage {
    pub const HELD: u32 = 0;

    pub const LIVE: u32 = 1;

    pub const QUEUED: u32 = 2;

    pub const RESPONSE: u32 = 3;
}

// ---- words

// A word as a flag; no `From`, since a word of any value but 0 is set.
pub fn is_set(word: u32) -> bool
    ensures { result ≡ flag word }
{
    word != 0
}

// A flag as a word.
pub fn word_of(set: bool) -> u32
    ensures { flag result ≡ set }
{
    if set { 1 } else { 0 }
}

// How many entries are open, whatever the count.
pub fn open_count(words: &Words) -> usize
    ensures { result ≡ open_count words.now }
{
    (words[Book::COUNT] as usize).min(Book::MOST_ENTRIES)
}

// How many legs there are, whatever the count; one line too, so that a function for both would say less.
pub fn leg_count(words: &Words) -> usize
    ensures { result ≡ leg_count words.now }
{
    (words[Legs::COUNT] as usize).min(Legs::MOST)
}

// Whether an auction is pending.
pub fn is_pending(words: &Words) -> bool
    ensures { Tells words (λ s. result ≡ is_pending s.auction) }
{
    is_set(words[Auction::PENDING])
}

// ---- entries

// An entry as it stands in the state: sides, accounts and stages are words.
#[derive(Clone, Copy)]
pub struct Entry {
    pub arrival: u64,
    pub id: u32,
    pub participant: u32,
    pub price: u32,
    pub units: u32,
    pub buy: u32,
    pub customer: u32,
    pub stage: u32,
}
