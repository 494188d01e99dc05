// Document 01, "Execution": one order's turn in the lent state, its records written into the lent list as they come; and the turns of the orders under some ids.
#![tactic(auto)]

ghost use Rattle.std.specs.Prelude.{◌≡◌, true, ◌&&◌, List, [], ◌∷◌, ℕ, ◌+◌, ◌-◌, ◌%◌, ◌<◌, ◌≤◌, eqb, ltb, leb, take};
ghost use Rattle.rules.specs.Basics.{pick, sum};
ghost use Rattle.rules.specs.Turn.{is_shared, deal};
ghost use Rattle.rules.specs.Execution.{legs_pass, turn_of, stage_after, kept_after, executed, ready, execute_if, execute, serve};
ghost use Rattle.types.specs.View.{stage_of, derived_of};
ghost use Rattle.state.specs.View.{entry_at, state_of};
ghost use Rattle.state.specs.Lent.{Becomes};
ghost use Rattle.records.specs.Records.{most_given, Writes};
ghost use Rattle.execution.specs.Slots.{mode_of, rules_mode, tiers_in, units_in, slot_offers};
ghost use Rattle.execution.specs.Walk.{no_tier, least_from, sizes_of, over, Under};
ghost use Rattle.execution.specs.Turned.{slot_records, Slotted, WritesAt, Cleared, Turned, order_at, IsContra, Turns, Gives};
ghost use Rattle.execution.specs.Kept.{AuctionBecomes};
ghost use Rattle.execution.specs.Plays.{Plays};

use offers::{Slot, Slots};
use state::{Book, Clock, Longs, Stage, Words};
use types::{Derived, Rank};

mod kept;
mod offers;

pub use offers::{Mode, at_or_through};

// ---- records

// The record of units that a slot gives, by the number of its rank; "a share of 0 has none".
fn put_slot(
    words: &Words,
    list: &mut [u64],
    at: usize,
    number: u64,
    order: u32,
    legs: u64,
    rank: u32,
    slot: usize,
    units: u32,
) -> usize
    requires { (slot < 66) × (legs ≤ most_given) }
    ensures { Writes list at result (slot_records number order legs words.now rank slot units) }
{
    if units == 0 {
        return at;
    }
    if slot < Slot::BOOK {
        return records::put_record(list, at, number, order, rank, 0, legs, units);
    }
    let k = slot - Slot::BOOK;
    let contra = records::contra_of(words[Book::IDS + k]);
    let price = u64::from(words[Book::PRICES + k]);
    records::put_record(list, at, number, order, rank, contra, price, units)
}

// ---- the nearest tier

// No tier: above every one, as none has a rank of 7.
const NONE: u32 = 4_294_967_295;

// The tier of a slot of u units at p, if it is from b on and has units.
fn open_tier(b: u32, p: u32, u: u32) -> u32
    ensures { (result ≡ pick (leb b p && ltb 0 u) p no_tier) × (p < 4294967296) }
{
    if (b <= p) & (0 < u) { p } else { NONE }
}

// The nearest tier from b on that has units, if there is one.
fn nearest(slots: &Slots, b: u32) -> u32
    requires { slots.now.count ≤ 66 }
    ensures { (result ≡ least_from b no_tier (tiers_in slots.now) (units_in slots.now)) × Under 4294967296 (tiers_in slots.now) }
{
    let mut m = NONE;
    for i in 0..slots.count {
        m = open_tier(b, slots.tiers[i], slots.units[i]).min(m);
    }
    m
}

// The number x for a slot at tier k, 0 for another.
fn at_tier(p: u32, k: u32, x: u32) -> u32
    ensures { result ≡ pick (eqb p k) x 0 }
{
    if p == k { x } else { 0 }
}

// "the rank's total": the units at tier k.
fn total_at(slots: &Slots, k: u32) -> u64
    requires { slots.now.count ≤ 66 }
    ensures { result ≡ sum (sizes_of k (tiers_in slots.now) (units_in slots.now)) }
{
    let mut sum: u64 = 0;
    for i in 0..slots.count {
        sum += u64::from(at_tier(slots.tiers[i], k, slots.units[i]));
    }
    sum
}

// ---- what the slots at one tier give

// The order whose turn it is: the number of the message that executes it, its id and units, and the legs' price for it.
#[derive(Clone, Copy)]
struct Order {
    pub number: u64,
    pub id: u32,
    pub units: u32,
    pub legs: u64,
}

// The new grants of those at tier k, and their records, by arrival.
fn give(
    words: &Words,
    list: &mut [u64],
    at: usize,
    o: Order,
    slots: &Slots,
    k: u32,
    new: &[u32; 66],
    gave: &mut [u32; 66],
) -> usize
    requires { Slotted slots.now o }
    ensures { (take slots.now.count gave.new ≡ over k (tiers_in slots.now) (take slots.now.count new.now) (take slots.now.count gave.old))
        × WritesAt k words list at result o slots.now gave }
{
    let rank = k % 8;
    let mut w = at;
    for i in 0..slots.count {
        if slots.tiers[i] != k {
            continue;
        }
        gave[i] = new[i];
        w = put_slot(words, list, w, o.number, o.id, o.legs, rank, i, new[i]);
    }
    w
}

// The units at tier k, 0 for those elsewhere.
fn gather(slots: &Slots, k: u32, sizes: &mut [u32; 66])
    requires { slots.now.count ≤ 66 }
    ensures { take slots.now.count sizes.new ≡ sizes_of k (tiers_in slots.now) (units_in slots.now) }
{
    for i in 0..slots.count {
        sizes[i] = at_tier(slots.tiers[i], k, slots.units[i]);
    }
}

// Whether tier k is of rank C or N.
fn is_shared(k: u32) -> bool
    ensures { result ≡ is_shared k }
{
    let rank = k % 8;
    if rank == Rank::C as u32 {
        return true;
    }
    rank == Rank::N as u32
}

// "C and N are shared by size"; the others in turn.
fn deal(sizes: &[u32; 66], n: usize, k: u32, amount: u32, shares: &mut [u32; 66])
    requires { n ≤ 66 }
    ensures { take n shares.new ≡ deal k amount (take n sizes.now) }
{
    if is_shared(k) {
        share::share(sizes, n, amount, shares);
    } else {
        share::in_turn(sizes, n, amount, shares);
    }
}

// An amount below the total at tier k, dealt to those there, and their records.
fn give_part(
    words: &Words,
    list: &mut [u64],
    at: usize,
    o: Order,
    slots: &Slots,
    k: u32,
    amount: u32,
    gave: &mut [u32; 66],
) -> usize
    requires { Slotted slots.now o }
    ensures { (take slots.now.count gave.new ≡ over k (tiers_in slots.now) (deal k amount (sizes_of k (tiers_in slots.now) (units_in slots.now))) (take slots.now.count gave.old))
        × WritesAt k words list at result o slots.now gave }
{
    let mut sizes = [0u32; 66];
    let mut shares = [0u32; 66];
    gather(slots, k, &mut sizes);
    deal(&sizes, slots.count, k, amount, &mut shares);
    give(words, list, at, o, slots, k, &shares, gave)
}

// ---- a turn

// How many records the list has after a turn, and the units that the order took.
#[derive(Clone, Copy)]
struct Taken {
    pub count: usize,
    pub units: u32,
}

// One order's turn over the offers in the slots, tier by tier while units are left.
fn turn(
    words: &Words,
    list: &mut [u64],
    at: usize,
    o: Order,
    slots: &Slots,
    gave: &mut [u32; 66],
) -> Taken
    requires { Slotted slots.now o × Cleared gave.old }
    ensures { (longs : List ℕ) → Turned o.number o.id o.units (slot_offers longs words.now o.legs slots.now)
        (take slots.now.count gave.new) result.units list.old at list.new result.count }
{
    let mut w = at;
    let mut rest = u64::from(o.units);
    let mut b: u32 = 0;
    // A `while`, as no range has these tiers: each is found from the one before.
    while 0 < rest {
        let k = nearest(slots, b);
        if NONE <= k {
            return Taken {
                count: w,
                units: o.units - (rest as u32),
            };
        }
        let total = total_at(slots, k);
        if rest < total {
            w = give_part(words, list, w, o, slots, k, rest as u32, gave);
            return Taken {
                count: w,
                units: o.units,
            };
        }
        w = give(words, list, w, o, slots, k, &slots.units, gave);
        rest -= total;
        b = k + 1;
    }
    Taken {
        count: w,
        units: o.units,
    }
}

// ---- the order at a place of the book

// The order at place k of the book, with the legs' price for it. The message that executes has taken its number: it is one below the next.
fn order_at(longs: &Longs, words: &Words, k: usize, legs: u64) -> Order
    requires { k < 64 }
    ensures { result ≡ order_at longs.now words.now k legs }
{
    let number = longs[Clock::NEXT].saturating_sub(1);
    Order {
        number: number,
        id: words[Book::IDS + k],
        units: words[Book::UNITS + k],
        legs: legs,
    }
}

// Its turn over the legs and the book, where d is its derived contra price.
fn open_turn(
    longs: &Longs,
    words: &Words,
    list: &mut [u64],
    at: usize,
    mode: Mode,
    k: usize,
    d: Derived,
    gave: &mut [u32; 66],
) -> Taken
    requires { (k < 64) × Cleared gave.old × IsContra longs.now words.now k (derived_of d) }
    ensures { Turns (rules_mode mode) longs words k gave result.units list at result.count }
{
    let o = order_at(longs, words, k, d.price);
    let mut slots = Slots {
        tiers: [0; 66],
        units: [0; 66],
        count: 0,
    };
    offers::interest(longs, words, mode, k, d, &mut slots);
    turn(words, list, at, o, &slots, gave)
}

// Its turn in the legs' pass, where only the legs are open to it, all in rank L.
fn legs_turn(
    longs: &Longs,
    words: &Words,
    list: &mut [u64],
    at: usize,
    k: usize,
    d: Derived,
    gave: &mut [u32; 66],
) -> Taken
    requires { (k < 64) × Cleared gave.old × IsContra longs.now words.now k (derived_of d) }
    ensures { Turns legs_pass longs words k gave result.units list at result.count }
{
    let o = order_at(longs, words, k, d.price);
    let buy = state::is_set(words[Book::BUYS + k]);
    let shown = offers::legs_units(buy, words[Book::PRICES + k], d);
    let units = o.units.min(shown);
    gave[Slot::LEAD] = units;
    let count = put_slot(
        words,
        list,
        at,
        o.number,
        o.id,
        o.legs,
        Rank::L as u32,
        Slot::LEAD,
        units,
    );
    Taken {
        count: count,
        units: units,
    }
}

// Its turn, as its mode says: what each slot gives, and its records.
fn planned(
    longs: &Longs,
    words: &Words,
    list: &mut [u64],
    at: usize,
    mode: Mode,
    k: usize,
    d: Derived,
    gave: &mut [u32; 66],
) -> Taken
    requires { (k < 64) × Cleared gave.old × IsContra longs.now words.now k (derived_of d) }
    ensures { Turns (rules_mode mode) longs words k gave result.units list at result.count }
{
    match mode {
        Mode::FromQueue | Mode::GoingLive => open_turn(longs, words, list, at, mode, k, d, gave),
        Mode::LegsPass => legs_turn(longs, words, list, at, k, d, gave),
    }
}

// "held orders become live"; a queue order stays in the queue until the auction's end.
fn stage_after(mode: Mode) -> u32
    ensures { stage_of result ≡ stage_after (rules_mode mode) }
{
    match mode {
        Mode::FromQueue => Stage::QUEUED,
        Mode::GoingLive | Mode::LegsPass => Stage::LIVE,
    }
}

// What the auction keeps after a turn that took some units from rank L: less from the queue; no other turn is during an auction.
fn kept_after(longs: &Longs, words: &mut Words, mode: Mode, d: Derived, taken: u32)
    ensures { AuctionBecomes longs words (λ a. kept_after (rules_mode mode) a (derived_of d ∷ []) (taken ∷ [])) }
{
    match mode {
        Mode::FromQueue => kept::less_kept(longs, words, d, taken),
        Mode::GoingLive | Mode::LegsPass => {}
    }
}

// The state after it: what was taken from rank L gone, the book settled, and the legs lowered.
fn applied(
    longs: &mut Longs,
    words: &mut Words,
    mode: Mode,
    k: usize,
    d: Derived,
    gave: &[u32; 66],
    took: u32,
)
    requires { (k < 64) × IsContra longs.old words.old k (derived_of d) × Gives (rules_mode mode) longs.old words.old k gave.now took }
    ensures { Becomes longs words (λ s. executed (rules_mode mode) s (turn_of (rules_mode mode) s (entry_at longs.old words.old k))) }
{
    let buy = state::is_set(words[Book::BUYS + k]);
    let id = words[Book::IDS + k];
    let lead = gave[Slot::LEAD];
    kept_after(longs, words, mode, d, lead);
    book::settle(longs, words, gave, id, took, stage_after(mode));
    quotes::lower(words, buy, lead + gave[Slot::LATE]);
}

// The turn of the order at place k, as its mode says: its records with their leg prices, and the state after it.
fn execute(
    longs: &mut Longs,
    words: &mut Words,
    list: &mut [u64],
    at: usize,
    mode: Mode,
    k: usize,
) -> usize
    requires { k < 64 }
    ensures { Plays longs words list at result (λ s. execute_if true (rules_mode mode) s (entry_at longs.old words.old k)) }
{
    let mut gave = [0u32; 66];
    let buy = state::is_set(words[Book::BUYS + k]);
    let d = quotes::derived(words, buy);
    let t = planned(longs, words, list, at, mode, k, d, &mut gave);
    legprices::book(words, list, at, t.count, buy);
    applied(longs, words, mode, k, d, &gave, t.units);
    t.count
}

// ---- the orders under some ids

// "queue orders execute"; "held orders become live .., each executing first"; "live orders at or through the derived contra price execute".
fn is_ready(words: &Words, mode: Mode, k: usize) -> bool
    requires { k < 64 }
    ensures { (longs : List ℕ) → result ≡ ready (rules_mode mode) (state_of longs words.now) (entry_at longs words.now k) }
{
    let stage = words[Book::STAGES + k];
    match mode {
        Mode::FromQueue => book::is_queued(stage),
        Mode::GoingLive => book::is_held(stage),
        Mode::LegsPass => {
            let buy = state::is_set(words[Book::BUYS + k]);
            let limit = words[Book::PRICES + k];
            let d = quotes::derived(words, buy);
            let reaching = offers::at_or_through(buy, limit, d);
            book::is_live(stage) & reaching
        }
    }
}

// The turn of the order under an id, if it is open and at that stage still.
fn execute_id(
    longs: &mut Longs,
    words: &mut Words,
    list: &mut [u64],
    at: usize,
    mode: Mode,
    id: u32,
) -> usize
    ensures { Plays longs words list at result (execute (rules_mode mode) id) }
{
    let Some(k) = book::find(words, id) else {
        return at;
    };
    if is_ready(words, mode, k) {
        return execute(longs, words, list, at, mode, k);
    }
    at
}

// The turns of the orders under the first n ids, each from the state that the one before left.
// `mode` stays a number: `serve` is a public name (README.md), and it takes any number.
pub fn serve(
    longs: &mut Longs,
    words: &mut Words,
    list: &mut [u64],
    at: usize,
    mode: u8,
    ids: &[u32; 64],
    n: usize,
) -> usize
    ensures { Plays longs words list at result (serve (mode_of mode) (take n ids.now)) }
{
    let m = Mode::from(mode);
    let end = n.min(Book::MOST_ENTRIES);
    let mut w = at;
    for i in 0..end {
        w = execute_id(longs, words, list, w, m, ids[i]);
    }
    w
}
