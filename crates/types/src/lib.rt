// The engine's types. Each bound of document 01 is an associated constant of the thing that it limits.
// What a value stands for in the rules is its view, in specs/View.antt. Prices inside are cents + 40,000,000.
// An opening, with all that it is made of, is laid out as in C: hosts hand it over.
#![tactic(auto)]

ghost use Rattle.std.specs.Prelude.{◌≡◌, true, false, OnOk, OnErr};
ghost use Rattle.rules.specs.Basics.{pick};
ghost use Rattle.types.specs.Refusals.{number_of, number_in};
ghost use Rattle.types.specs.View.{rank_of, rank_from, contra_of, contra_from};

// "A leg has a 21-byte symbol .., a side B or S as seen by a buyer of the strategy, a ratio, and a minimum price step".
#[repr(C)]
#[derive(Clone, Copy)]
pub struct Leg {
    pub symbol: [u8; 21],
    pub side: u8,
    pub ratio: u8,
    pub mpv: u8,
}

impl Leg {
    // The letters of the sides. No enum: a host hands over any byte, and the rows refuse what is none.
    pub const B: u8 = 66;

    pub const S: u8 = 83;

    pub const LEAST_RATIO: u8 = 1;

    pub const MOST_RATIO: u8 = 9;

    // "neither ratio is above three times the other".
    pub const MOST_TIMES: u32 = 3;

    // "a minimum price step (MPV, 002) of 1, 5 or 10 cents".
    pub const CENT: u8 = 1;

    pub const NICKEL: u8 = 5;

    pub const DIME: u8 = 10;
}

// The amounts of the filter, for an MPV of 1, 5 and 10.
#[repr(C)]
#[derive(Clone, Copy)]
pub struct Amounts {
    pub one: u16,
    pub five: u16,
    pub ten: u16,
}

impl Amounts {
    pub const MOST: u16 = 999;
}

// The class settings, the first arrival number and the opening's time.
#[repr(C)]
#[derive(Clone, Copy)]
pub struct Settings {
    pub first: u64,
    pub time: u64,
    pub minimum: u32,
    pub interval: u16,
    pub distance: u16,
    pub legs: u16,
    pub amounts: Amounts,
}

impl Settings {
    pub const LEAST_INTERVAL: u16 = 1;

    pub const MOST_INTERVAL: u16 = 1_000;

    pub const MOST_DISTANCE: u16 = 999;

    // Of the class's leg count.
    pub const LEAST_LEGS: u16 = 2;

    pub const MOST_LEGS: u16 = 4;

    pub const LEAST_MINIMUM: u32 = 1;

    pub const MOST_MINIMUM: u32 = 999_999;
}

// What is opened: the legs in use are the first `count`.
#[repr(C)]
#[derive(Clone, Copy)]
pub struct Opening {
    pub legs: [Leg; 4],
    pub count: usize,
    pub settings: Settings,
}

impl Opening {
    pub const LEAST_LEGS: usize = 2;

    pub const MOST_LEGS: usize = 4;
}

// A leg's local sides, price and size both 0 for absent, and its national prices, 0 for absent.
#[derive(Clone, Copy)]
pub struct Quote {
    pub bid: u32,
    pub bidsize: u32,
    pub ask: u32,
    pub asksize: u32,
    pub nationalbid: u32,
    pub nationalask: u32,
}

impl Quote {
    pub const MOST_PRICE: u32 = 999_999;

    pub const MOST_SIZE: u32 = 999_999;

    // M-106: how far the ask may be above the bid where there are leg prices, in cents.
    pub const MOST_WIDE: u32 = 50;
}

// A derived price with its units; 0 units is none.
#[derive(Clone, Copy)]
pub struct Derived {
    pub price: u64,
    pub units: u32,
}

// A local quote.
#[derive(Clone, Copy)]
pub struct Local {
    pub leg: u8,
    pub bidsize: u32,
    pub bid: i32,
    pub ask: i32,
    pub asksize: u32,
}

// A national quote.
#[derive(Clone, Copy)]
pub struct National {
    pub leg: u8,
    pub bid: i32,
    pub ask: i32,
}

// An order, with its auction wish.
#[derive(Clone, Copy)]
pub struct Order {
    pub side: u8,
    pub account: u8,
    pub wish: bool,
    pub id: u32,
    pub participant: u32,
    pub units: u32,
    pub price: i32,
}

impl Order {
    // "account (1 customer, 2 not)"; a message may have any other byte.
    pub const CUSTOMER: u8 = 1;

    pub const OTHER: u8 = 2;

    // Of responses too.
    pub const MOST_UNITS: u32 = 999_999;

    // "Net limits run from -40,000,000 to 40,000,000".
    pub const MOST_CENTS: u32 = 40_000_000;
}

// A response.
#[derive(Clone, Copy)]
pub struct Response {
    pub side: u8,
    pub account: u8,
    pub id: u32,
    pub participant: u32,
    pub units: u32,
    pub price: i32,
}

// A modification of a response.
#[derive(Clone, Copy)]
pub struct Modify {
    pub side: u8,
    pub id: u32,
    pub participant: u32,
    pub units: u32,
    pub price: i32,
}

// The cancel of an order.
#[derive(Clone, Copy)]
pub struct Cancel {
    pub id: u32,
    pub participant: u32,
}

// M-105: an order reduced to these open units.
#[derive(Clone, Copy)]
pub struct Reduce {
    pub id: u32,
    pub participant: u32,
    pub units: u32,
}

// The eight kinds.
#[derive(Clone, Copy)]
pub enum Body {
    Local(Local),
    National(National),
    Order(Order),
    Response(Response),
    Modify(Modify),
    Cancel(Cancel),
    Clock,
    Reduce(Reduce),
}

#[derive(Clone, Copy)]
pub struct Message {
    pub time: u64,
    pub body: Body,
}

// "rank L, legs; C, customer orders and responses; N, non-customer ones; T, late legs"; outside an auction R.
#[derive(Clone, Copy)]
pub enum Rank {
    L,
    C,
    N,
    T,
    R,
}

// The rank of a number.
impl From<u64> for Rank {
    ghost from_gives = { λ n r. rank_of r ≡ rank_from n };

    fn from(n: u64) -> Rank {
        match n {
            0 => Rank::L,
            1 => Rank::C,
            2 => Rank::N,
            3 => Rank::T,
            _ => Rank::R,
        }
    }
}

// "A contra is either the legs or an open entry with its id": no `Option`, since the legs are not a lack of an entry.
#[derive(Clone, Copy)]
pub enum Contra {
    Legs,
    Entry(u32),
}

// The contra of a number: 0 is the legs, another an id and 1.
impl From<u64> for Contra {
    ghost from_gives = { λ n r. contra_of r ≡ contra_from n };

    fn from(n: u64) -> Contra {
        if n == 0 {
            return Contra::Legs;
        }
        Contra::Entry(u32::try_from(n - 1).unwrap_or(u32::MAX))
    }
}

// A fill record; the price is in signed cents. M-106: of how many legs it has prices, if it has any; they are those of the first legs, in cents, 0 behind them.
#[derive(Clone, Copy)]
pub struct Fill {
    pub number: u64,
    pub price: i64,
    pub order: u32,
    pub units: u32,
    pub rank: Rank,
    pub contra: Contra,
    pub legs: Option<u32>,
    pub prices: [u64; 4],
}

impl Fill {
    // The greatest biased price that a record gives; no legs and no entry have one above it.
    pub const MOST_BIASED: u64 = 4_611_686_018_427_387_904;

    // "fill list under 2,000 places".
    pub const LEAST_ROOM: usize = 2_000;
}

// "cause: time, order or legs"; M-105: "a fourth cause, cancel".
#[derive(Clone, Copy)]
pub enum Cause {
    Time,
    Order,
    Legs,
    Cancel,
}

// "Where a message is turned back": a row for each number of the table.
#[derive(Clone, Copy, PartialEq, Eq)]
pub enum Refusal {
    // Opening.
    LegCount = 1,
    Symbol = 2,
    Date = 3,
    Roots = 4,
    Ratios = 5,
    SideOrMpv = 6,
    Setting = 7,
    // Every message.
    ShortList = 10,
    Time = 11,
    NextNumber = 12,
    Deadline = 13,
    // Quotes.
    NoLeg = 20,
    PriceOrSize = 21,
    Crossed = 22,
    // Orders.
    OrderFields = 30,
    OrderId = 31,
    FullOrders = 32,
    Filter = 33,
    // Responses.
    NoAuction = 40,
    ResponseFields = 41,
    ResponseId = 42,
    FullResponses = 43,
    // Cancel; M-105: and reduce.
    NoOrder = 50,
    OpenUnits = 71,
    // Tape; M-100: and its form.
    Damaged = 60,
    Kind = 61,
    ShortOutput = 70,
}

impl Refusal {
    // "First that applies, reading down": a row whose condition holds turns back.
    pub fn when(self, holds: bool) -> Result<(), Refusal>
        ensures number { number_in result ≡ pick holds (number_of self) 0 }
        ensures ok { OnOk result (holds ≡ false) }
        ensures err { OnErr result (holds ≡ true) }
    {
        if holds { Err(self) } else { Ok(()) }
    }
}

// The number by which a refusal is told, 0 for none.
pub fn number_in(r: Result<(), Refusal>) -> u32
    ensures { result ≡ number_in r }
{
    match r {
        Ok(()) => 0,
        Err(row) => u32::from(row),
    }
}

impl From<Refusal> for u32 {
    ghost from_gives = { λ r n. n ≡ number_of r };

    fn from(r: Refusal) -> u32 {
        r as u32
    }
}

// "The answer to a message is one of six outcomes".
#[derive(Clone, Copy)]
pub enum Outcome {
    Noted(u32),
    Placed(u32, u32),
    Begun(u64),
    Joined(u64),
    Ended(Cause, u32),
    Refused(Refusal),
}
