// The open orders and responses: what is asked of them. Each question is a scan of the book's columns in the lent words.
#![tactic(auto)]

ghost use Rattle.std.specs.Prelude.{◌≡◌, true, ◌&&◌, ◌||◌, not, List, ℕ, ◌<◌, ◌≤◌, eqb, take, position};
ghost use Rattle.rules.specs.Basics.{pick};
ghost use Rattle.rules.specs.Filter.{beyond};
ghost use Rattle.rules.specs.Book.{Entry as Open, nobody, found, find, units_of, any, count, units_if, same_side, better, is_held, is_live, is_queued, is_response};
ghost use Rattle.rules.specs.Refusals.{is_order, is_open, of_participant};
ghost use Rattle.rules.specs.Auction.{in_front, initiator, beats_found};
ghost use Rattle.types.specs.View.{stage_of};
ghost use Rattle.state.specs.View.{flag, entry_of, entry_at, open_count, entries_of};
ghost use Rattle.state.specs.Lent.{Tells};
ghost use Rattle.book.specs.Questions.{is_near_live, is_across, is_unbeaten, front_of, front_with, found_at};

use state::{Book, Entry, Longs, Stage, Words};

mod changes;
mod ids;

pub use changes::{append, close, reduce, remove, settle, take_out};
pub use ids::{any_held, any_queued, held_ids, live_ids, queue_ids};

// ---- one entry

// A held order.
pub fn is_held(stage: u32) -> bool
    ensures { result ≡ is_held (stage_of stage) }
{
    stage == Stage::HELD
}

// A live order.
pub fn is_live(stage: u32) -> bool
    ensures { result ≡ is_live (stage_of stage) }
{
    stage == Stage::LIVE
}

// An order in the auction queue.
pub fn is_queued(stage: u32) -> bool
    ensures { result ≡ is_queued (stage_of stage) }
{
    stage == Stage::QUEUED
}

// A response, and no order.
pub fn is_response(stage: u32) -> bool
    ensures { result ≡ is_response (stage_of stage) }
{
    Stage::QUEUED < stage
}

// "Same side".
pub fn same_side(a: bool, b: bool) -> bool
    ensures { result ≡ same_side a b }
{
    if a { b } else { !b }
}

// Limit p is strictly better than q: higher for a buyer, lower for a seller.
fn is_better(buy: bool, p: u64, q: u64) -> bool
    ensures { result ≡ better buy p q }
{
    if buy { q < p } else { p < q }
}

// ---- under an id

// "id open as order or response".
pub fn is_open(words: &Words, id: u32) -> bool
    ensures { Tells words (λ s. result ≡ is_open id s) }
{
    let m = state::open_count(words);
    words[Book::IDS..Book::IDS + m].contains(&id)
}

// The place of the entry under an id.
pub fn find(words: &Words, id: u32) -> Option<usize>
    ensures place { result ≡ position (λ x. eqb x id) (take (open_count words.now) words.now) }
    ensures entry { (longs : List ℕ) → find id (entries_of longs words.now) ≡ found_at (entry_at longs words.now) result }
{
    let m = state::open_count(words);
    words[Book::IDS..Book::IDS + m]
        .iter()
        .position(|x| *x == id)
}

// The open units under an id, 0 where there is none.
pub fn units_of(words: &Words, id: u32) -> u32
    ensures { Tells words (λ s. result ≡ units_of (find id s.book)) }
{
    match find(words, id) {
        Some(k) => words[Book::UNITS + k],
        None => 0,
    }
}

// The entry at a place of the book.
fn entry_at(longs: &Longs, words: &Words, k: usize) -> Entry
    requires { k < 64 }
    ensures { entry_of result ≡ entry_at longs.now words.now k }
{
    Entry {
        arrival: longs[Book::ARRIVALS + k],
        id: words[Book::IDS + k],
        participant: words[Book::PARTICIPANTS + k],
        price: words[Book::PRICES + k],
        units: words[Book::UNITS + k],
        buy: words[Book::BUYS + k],
        customer: words[Book::CUSTOMERS + k],
        stage: words[Book::STAGES + k],
    }
}

// What stands under an id and a participant.
#[derive(Clone, Copy)]
pub struct Standing {
    pub order: bool,
    pub response: bool,
}

// "of that id and participant".
fn is_of(a: u32, b: u32, id: u32, participant: u32) -> bool
    ensures { result ≡ (eqb a id && eqb b participant) }
{
    (a == id) & (b == participant)
}

// What is known so far, with one entry more: its stage, and whether it is of that id and participant.
fn noted(s: Standing, stage: u32, own: bool) -> Standing
    ensures { (result.order ≡ (s.order || (not (is_response (stage_of stage)) && own))) × (result.response ≡ (s.response || (is_response (stage_of stage) && own))) }
{
    let response = is_response(stage);
    Standing {
        order: s.order | (!response & own),
        response: s.response | (response & own),
    }
}

// "no open order of that id and participant", "no response of that id and participant".
pub fn standing_of(words: &Words, id: u32, participant: u32) -> Standing
    ensures { Tells words (λ s. (result.order ≡ any (λ e. is_order e && of_participant id participant e) s.book) × (result.response ≡ any (λ e. is_response e.stage && of_participant id participant e) s.book)) }
{
    let m = state::open_count(words);
    let mut s = Standing {
        order: false,
        response: false,
    };
    for k in 0..m {
        let own = is_of(
            words[Book::IDS + k],
            words[Book::PARTICIPANTS + k],
            id,
            participant,
        );
        s = noted(s, words[Book::STAGES + k], own);
    }
    s
}

// ---- how many, how much

// How many orders and how many responses are open, as hosts are told.
#[repr(C)]
#[derive(Clone, Copy)]
pub struct Counts {
    pub orders: usize,
    pub responses: usize,
}

// "32 orders open", "43 new: 32 open".
pub fn open_counts(words: &Words) -> Counts
    ensures { Tells words (λ s. (result.orders ≡ count is_order s.book) × (result.responses ≡ count (λ e. is_response e.stage) s.book)) }
{
    let m = state::open_count(words);
    let mut responses = 0;
    for k in 0..m {
        responses += usize::from(is_response(words[Book::STAGES + k]));
    }
    Counts {
        orders: m - responses,
        responses,
    }
}

// The units of an entry in the queue, 0 of any other.
fn units_queued(stage: u32, units: u32) -> u64
    ensures { (result ≡ pick (is_queued (stage_of stage)) units 0) × (result ≤ 4294967295) }
{
    if is_queued(stage) { units as u64 } else { 0 }
}

// "Joined (units in the queue)".
pub fn queue_units(words: &Words) -> u64
    ensures { Tells words (λ s. result ≡ units_if (λ e. is_queued e.stage) s.book) }
{
    let m = state::open_count(words);
    let mut sum: u64 = 0;
    for k in 0..m {
        sum += units_queued(words[Book::STAGES + k], words[Book::UNITS + k]);
    }
    sum
}

// ---- eligibility

// An open order outside the queue, on that side, that the limit is not strictly better than.
fn is_standing(stage: u32, side: u32, limit: u32, buy: bool, price: u32) -> bool
    ensures { result ≡ ((is_held (stage_of stage) || is_live (stage_of stage)) && same_side buy (flag side) && not (better buy price limit)) }
{
    (is_held(stage) | is_live(stage))
        & same_side(buy, state::is_set(side))
        & !is_better(buy, price as u64, limit as u64)
}

// "its limit is strictly better than every other open same-side order outside the queue".
pub fn in_front(words: &Words, buy: bool, price: u32) -> bool
    ensures { Tells words (λ s. (o : Open) → o.buy ≡ buy → o.price ≡ price → result ≡ in_front s o) }
{
    let m = state::open_count(words);
    let mut seen = false;
    for k in 0..m {
        seen = seen
            | is_standing(
                words[Book::STAGES + k],
                words[Book::BUYS + k],
                words[Book::PRICES + k],
                buy,
                price,
            );
    }
    !seen
}

// A live order on the other side that the limit reaches or misses by at most the distance.
fn is_near_live(stage: u32, side: u32, p: u32, buy: bool, price: u32, distance: u32) -> bool
    ensures { result ≡ (is_live (stage_of stage) && not (same_side buy (flag side)) && not (beyond (not buy) distance price p)) }
{
    let far = price::is_beyond(!buy, distance as u64, price as u64, p as u64);
    is_live(stage) & !same_side(buy, state::is_set(side)) & !far
}

// "a best contra price (.. live order) exists that the limit reaches or misses by at most the class distance".
pub fn near_live(words: &Words, buy: bool, price: u32, distance: u32) -> bool
    ensures { Tells words (λ s. result ≡ any (is_near_live buy price distance) s.book) }
{
    let m = state::open_count(words);
    let mut seen = false;
    for k in 0..m {
        seen = seen
            | is_near_live(
                words[Book::STAGES + k],
                words[Book::BUYS + k],
                words[Book::PRICES + k],
                buy,
                price,
                distance,
            );
    }
    seen
}

// ---- the initiator

// The greatest number of a word.
const MOST_WORD: u64 = 4_294_967_295;

// The first of a queue: its side and its limit.
#[derive(Clone, Copy)]
struct Front {
    buy: bool,
    price: u32,
}

// The first, with an entry more before all others: it is ahead unless the first is strictly better.
fn put_front(first: Option<Front>, side: u32, price: u32) -> Front
    ensures { result ≡ front_with (flag side) price first }
{
    match first {
        Some(a) if is_better(a.buy, u64::from(a.price), u64::from(price)) => a,
        _ => Front {
            buy: state::is_set(side),
            price,
        },
    }
}

// The first of the queue, "by price, then arrival".
fn first_queued(words: &Words) -> Option<Front>
    ensures { Tells words (λ s. result ≡ front_of (initiator s)) }
{
    let mut first = None;
    for k in (0..state::open_count(words)).rev() {
        if is_queued(words[Book::STAGES + k]) {
            first = Some(put_front(first, words[Book::BUYS + k], words[Book::PRICES + k]));
        }
    }
    first
}

// What the queue is to a price of one side: whether there is an order, whether one is on the other side, and whether the price is not strictly better than one's limit.
#[derive(Clone, Copy)]
struct Against {
    there: bool,
    other: bool,
    unbeaten: bool,
}

// What is known so far, with one entry more.
fn put_against(a: Against, stage: u32, side: u32, limit: u32, buy: bool, price: u32) -> Against
    ensures { (result.there ≡ (a.there || is_queued (stage_of stage))) × (result.other ≡ (a.other || (is_queued (stage_of stage) && not (same_side buy (flag side))))) × (result.unbeaten ≡ (a.unbeaten || (is_queued (stage_of stage) && not (better buy price limit)))) }
{
    let queued = is_queued(stage);
    Against {
        there: a.there | queued,
        other: a.other | (queued & !same_side(buy, state::is_set(side))),
        unbeaten: a.unbeaten | (queued & !is_better(buy, price as u64, limit as u64)),
    }
}

fn queue_against(words: &Words, buy: bool, price: u32) -> Against
    ensures { Tells words (λ s. (result.there ≡ any (λ e. is_queued e.stage) s.book) × (result.other ≡ any (is_across buy) s.book) × (result.unbeaten ≡ any (is_unbeaten buy price) s.book)) }
{
    let m = state::open_count(words);
    let mut a = Against {
        there: false,
        other: false,
        unbeaten: false,
    };
    for k in 0..m {
        a = put_against(
            a,
            words[Book::STAGES + k],
            words[Book::BUYS + k],
            words[Book::PRICES + k],
            buy,
            price,
        );
    }
    a
}

// "Same side, better than the initiator's limit". Where all of the queue is on that side, as in every state that is reached, it is better than every limit there.
pub fn beats(words: &Words, buy: bool, price: u64) -> bool
    ensures { Tells words (λ s. result ≡ beats_found buy price (initiator s)) }
{
    if price <= MOST_WORD {
        let a = queue_against(words, buy, price as u32);
        if !a.other {
            return a.there & !a.unbeaten;
        }
    }
    match first_queued(words) {
        Some(f) => is_better(buy, price, u64::from(f.price)),
        None => false,
    }
}
