// Leg quotes in the words of a state: derived bid and ask with their units, the filter, what a fill takes from the legs, quotes taken in.
#![tactic(auto)]

ghost use Rattle.std.specs.Prelude.{◌≡◌, ◌-◌, ◌*◌, ◌≤◌, ◌<◌};
ghost use Rattle.rules.specs.Strategy.{is_b, most_ratio};
ghost use Rattle.rules.specs.Prices.{uses_ask, used, net, units_shown, least, derived as derived_rule, lowered, lower_quote, lower as lower_of};
ghost use Rattle.rules.specs.Filter.{all_national, leg_price, smaller as smaller_of, smallest as smallest_rule, amount_for, smallest_ratio as smallest_ratio_of, filtered as filtered_of};
ghost use Rattle.rules.specs.State.{with_market};
ghost use Rattle.rules.specs.Step.{local_quote, national_quote, local_in, national_in};
ghost use Rattle.types.specs.View.{quote_of, derived_of, local_of, national_of};
ghost use Rattle.state.specs.View.{ratio_of};
ghost use Rattle.state.specs.Lent.{Tells, WordsBecome};
ghost use Rattle.quotes.specs.Uses.{OfLeg, price_used, leg_price_of, side_of, most_cost, most_derived, IsPart};
ghost use Rattle.quotes.specs.Requoted.{Requoted};
ghost use Rattle.quotes.specs.Ranges.{quote_now, range_in, range_now};

use state::{Legs, Market, Settings, Words};
use types::{Derived, Leg, Local, National, Order, Quote};

// ---- derived prices

// Whether a leg's side is B.
fn is_b(words: &Words, k: usize) -> bool
    requires { k < 4 }
    ensures { OfLeg words.now k (λ l q. result ≡ is_b l.side) }
{
    words[Legs::SIDES + k] == Leg::B as u32
}

// "The derived ask uses asks of B legs and bids of S legs; the derived bid the opposite sides".
fn uses_ask(words: &Words, ask: bool, k: usize) -> bool
    requires { k < 4 }
    ensures { OfLeg words.now k (λ l q. result ≡ uses_ask ask l) }
{
    let b = is_b(words, k);
    if ask { b } else { !b }
}

// The price that a derived price uses, national or local.
fn price_used(words: &Words, national: bool, ask: bool, k: usize) -> u32
    requires { k < 4 }
    ensures { OfLeg words.now k (λ l q. result ≡ price_used national ask l q) }
{
    match (uses_ask(words, ask, k), national) {
        (true, true) => words[Market::NATIONAL_ASKS + k],
        (true, false) => words[Market::ASKS + k],
        (false, true) => words[Market::NATIONAL_BIDS + k],
        (false, false) => words[Market::BIDS + k],
    }
}

// The size that a derived price uses.
fn size_used(words: &Words, ask: bool, k: usize) -> u32
    requires { k < 4 }
    ensures { OfLeg words.now k (λ l q. result ≡ (used ask l q).size) }
{
    if uses_ask(words, ask, k) {
        words[Market::ASK_SIZES + k]
    } else {
        words[Market::BID_SIZES + k]
    }
}

// The ratio of a leg.
fn ratio_at(words: &Words, k: usize) -> u32
    requires { k < 4 }
    ensures { result ≡ ratio_of words.now k }
{
    words[Legs::RATIOS + k].min(Legs::MOST_RATIO)
}

// "size divided by ratio, rounded down"; a ratio of 0 shows none, and one of 1 needs no division.
fn units_shown(words: &Words, ask: bool, k: usize) -> u32
    requires { k < 4 }
    ensures { OfLeg words.now k (λ l q. result ≡ units_shown ask l q) }
{
    let size = size_used(words, ask, k);
    let ratio = ratio_at(words, k);
    if ratio == 1 {
        return size;
    }
    if ratio == 0 { 0 } else { size / ratio }
}

// A ratio times a number.
fn times(ratio: u32, n: u32) -> u64
    requires { ratio ≤ most_ratio }
    ensures { (result ≡ ratio * n) × (result ≤ most_cost) }
{
    u64::from(ratio) * u64::from(n)
}

// A leg's part in a derived price: its cost among the B legs, or among the S legs, and the units that it shows.
#[derive(Clone, Copy)]
struct Part {
    pub bought: u64,
    pub sold: u64,
    pub units: u32,
}

fn leg_part(words: &Words, national: bool, ask: bool, k: usize) -> Part
    requires { k < 4 }
    ensures { OfLeg words.now k (λ l q. IsPart national ask l q result) }
{
    let cost = times(ratio_at(words, k), price_used(words, national, ask, k));
    let units = units_shown(words, ask, k);
    if is_b(words, k) {
        Part {
            bought: cost,
            sold: 0,
            units,
        }
    } else {
        Part {
            bought: 0,
            sold: cost,
            units,
        }
    }
}

// What a unit costs at national or at local prices, biased: "the sum of ratio × price over B legs less the same over S legs"; "its units are the least of size divided by ratio, rounded down".
fn priced(words: &Words, national: bool, ask: bool) -> Derived
    ensures { Tells words (λ s. (result.price ≡ net (price_used national ask) s.strategy.legs s.market) × (result.units ≡ least ask s.strategy.legs s.market)) × (result.price ≤ most_derived) }
{
    let n = state::leg_count(words);
    let mut bought = Order::MOST_CENTS as u64;
    if n == 0 {
        return Derived {
            price: bought,
            units: 0,
        };
    }
    let mut sold: u64 = 0;
    // A word is no greater, so no leg shows more.
    let mut units: u32 = 4_294_967_295;
    for k in 0..n {
        let p = leg_part(words, national, ask, k);
        bought += p.bought;
        sold += p.sold;
        units = units.min(p.units);
    }
    Derived {
        price: bought.saturating_sub(sold),
        units,
    }
}

// The derived ask, or the derived bid, with its units.
// No Option: with 0 units the price is still the sum over the legs, and the rules tell it.
pub fn derived(words: &Words, ask: bool) -> Derived
    ensures { Tells words (λ s. derived_of result ≡ derived_rule ask s.strategy.legs s.market) × (result.price ≤ most_derived) }
{
    priced(words, false, ask)
}

// ---- the filter

// "only if every leg has a national bid and ask".
fn all_national(words: &Words) -> bool
    ensures { Tells words (λ s. result ≡ all_national s.market) }
{
    let n = state::leg_count(words);
    for k in 0..n {
        if words[Market::NATIONAL_BIDS + k] == 0 {
            return false;
        }
        if words[Market::NATIONAL_ASKS + k] == 0 {
            return false;
        }
    }
    true
}

// A leg's national price that a contra price uses, and its MPV.
#[derive(Clone, Copy)]
struct LegPrice {
    pub price: u32,
    pub mpv: u32,
}

fn price_of(words: &Words, ask: bool, k: usize) -> LegPrice
    requires { k < 4 }
    ensures { OfLeg words.now k (λ l q. leg_price_of result ≡ leg_price ask l q) }
{
    LegPrice {
        price: price_used(words, true, ask, k),
        mpv: words[Legs::MPVS + k],
    }
}

// The smaller of two, the earlier on a tie.
fn smaller(early: LegPrice, late: LegPrice) -> LegPrice
    ensures { leg_price_of result ≡ smaller_of (leg_price_of early) (leg_price_of late) }
{
    if late.price < early.price {
        late
    } else {
        early
    }
}

// "Of the legs' prices used in it find the smallest, the earlier leg on a tie".
fn smallest(words: &Words, ask: bool) -> LegPrice
    ensures { Tells words (λ s. leg_price_of result ≡ smallest_rule ask s.strategy.legs s.market) }
{
    let n = state::leg_count(words);
    if n == 0 {
        return LegPrice { price: 0, mpv: 0 };
    }
    let mut p = price_of(words, ask, 0);
    for k in 1..n {
        p = smaller(p, price_of(words, ask, k));
    }
    p
}

// "the amount set for that leg's MPV".
fn amount_for(words: &Words, p: LegPrice) -> u32
    ensures { Tells words (λ s. result ≡ amount_for s.strategy.settings (leg_price_of p)) }
{
    if p.mpv == Leg::CENT as u32 {
        return words[Settings::AMOUNTS];
    }
    if p.mpv == Leg::NICKEL as u32 {
        return words[Settings::AMOUNTS + 1];
    }
    words[Settings::AMOUNTS + 2]
}

// The smallest ratio of the strategy.
fn smallest_ratio(words: &Words) -> u32
    ensures { Tells words (λ s. result ≡ smallest_ratio_of s.strategy.legs) × (result ≤ most_ratio) }
{
    let n = state::leg_count(words);
    if n == 0 {
        return 0;
    }
    let mut t = ratio_at(words, 0);
    for k in 1..n {
        t = t.min(ratio_at(words, k));
    }
    t
}

// "Refuse if the limit is beyond the contra price by more than amount × smallest ratio".
pub fn filtered(words: &Words, buy: bool, limit: u32) -> bool
    ensures { Tells words (λ s. result ≡ filtered_of s.strategy s.market buy limit) }
{
    if all_national(words) {
        let contra = priced(words, true, buy);
        let amount = amount_for(words, smallest(words, buy));
        let most = times(smallest_ratio(words), amount);
        price::is_beyond(buy, most, u64::from(limit), contra.price)
    } else {
        false
    }
}

// ---- quotes changed

// The quote of a leg.
fn quote_at(words: &Words, k: usize) -> Quote
    requires { k < 4 }
    ensures { OfLeg words.now k (λ l q. quote_of result ≡ q) }
{
    Quote {
        bid: words[Market::BIDS + k],
        bidsize: words[Market::BID_SIZES + k],
        ask: words[Market::ASKS + k],
        asksize: words[Market::ASK_SIZES + k],
        nationalbid: words[Market::NATIONAL_BIDS + k],
        nationalask: words[Market::NATIONAL_ASKS + k],
    }
}

// A quote stored for a leg.
fn put_quote(words: &mut Words, k: usize, q: Quote)
    requires { k < 4 }
    ensures { Requoted k (quote_of q) words.old words.new }
{
    words[Market::BIDS + k] = q.bid;
    words[Market::BID_SIZES + k] = q.bidsize;
    words[Market::ASKS + k] = q.ask;
    words[Market::ASK_SIZES + k] = q.asksize;
    words[Market::NATIONAL_BIDS + k] = q.nationalbid;
    words[Market::NATIONAL_ASKS + k] = q.nationalask;
}

// A side of a quote.
#[derive(Clone, Copy)]
struct Side {
    price: u32,
    size: u32,
}

// A side less n contracts; "a side at size 0 becomes absent".
fn lowered(s: Side, n: u64) -> Side
    ensures { side_of result ≡ lowered (side_of s) n }
{
    if n < u64::from(s.size) {
        Side {
            size: s.size - n as u32,
            ..s
        }
    } else {
        Side { price: 0, size: 0 }
    }
}

// A quote with its ask, or its bid, less n contracts.
fn lower_quote(ask: bool, n: u64, q: Quote) -> Quote
    ensures { quote_of result ≡ lower_quote ask n (quote_of q) }
{
    if ask {
        let s = lowered(
            Side {
                price: q.ask,
                size: q.asksize,
            },
            n,
        );
        Quote {
            ask: s.price,
            asksize: s.size,
            ..q
        }
    } else {
        let s = lowered(
            Side {
                price: q.bid,
                size: q.bidsize,
            },
            n,
        );
        Quote {
            bid: s.price,
            bidsize: s.size,
            ..q
        }
    }
}

// A leg's quote less what so many units take of it.
fn lowered_at(words: &Words, ask: bool, units: u32, k: usize) -> Quote
    requires { k < 4 }
    ensures { OfLeg words.now k (λ l q. quote_of result ≡ lower_quote (uses_ask ask l) (l.ratio * units) q) }
{
    let side = uses_ask(words, ask, k);
    let n = times(ratio_at(words, k), units);
    lower_quote(side, n, quote_at(words, k))
}

// The same stored.
fn lower_leg(words: &mut Words, ask: bool, units: u32, k: usize)
    requires { k < 4 }
    ensures { OfLeg words.old k (λ l q. Requoted k (lower_quote (uses_ask ask l) (l.ratio * units) q) words.old words.new) }
{
    put_quote(words, k, lowered_at(words, ask, units, k));
}

// "Filling legs lowers those sizes by ratio × units".
pub fn lower(words: &mut Words, ask: bool, units: u32)
    ensures { WordsBecome words (λ s. with_market s (lower_of ask units s.strategy.legs s.market)) }
{
    let n = state::leg_count(words);
    for k in 0..n {
        lower_leg(words, ask, units, k);
    }
}

// ---- quotes read, as a turn goes on

// A leg's quote, less what the units take of it that a buyer or a seller took, if there are such.
fn quote_now(words: &Words, k: usize, buy: bool, taken: Option<u32>) -> Quote
    requires { k < 4 }
    ensures { OfLeg words.now k (λ l q. quote_of result ≡ quote_now buy taken l q) }
{
    match taken {
        Some(units) => lowered_at(words, buy, units, k),
        None => quote_at(words, k),
    }
}

// A leg's local bid and ask, 0 for absent, with what a cent of it counts for a buyer of the strategy.
#[derive(Clone, Copy)]
pub struct Range {
    pub plus: bool,
    pub ratio: u32,
    pub bid: u32,
    pub ask: u32,
}

// The range of a leg, lowered by the units that a buyer or a seller took, if there are such; nothing beyond the fourth.
pub fn range_at(words: &Words, k: usize, buy: bool, taken: Option<u32>) -> Range
    ensures { OfLeg words.now k (λ l q. range_in result ≡ range_now k buy taken l q) }
{
    if k < Legs::MOST {
        let q = quote_now(words, k, buy, taken);
        return Range {
            plus: is_b(words, k),
            ratio: ratio_at(words, k),
            bid: q.bid,
            ask: q.ask,
        };
    }
    Range {
        plus: false,
        ratio: 0,
        bid: 0,
        ask: 0,
    }
}

// ---- quotes taken in

// A quote with both local sides replaced.
fn with_local(old: Quote, q: Local) -> Quote
    ensures { quote_of result ≡ local_quote (local_of q) (quote_of old) }
{
    Quote {
        bid: price::natural(q.bid),
        bidsize: q.bidsize,
        ask: price::natural(q.ask),
        asksize: q.asksize,
        ..old
    }
}

// A quote with both national prices replaced.
fn with_national(old: Quote, q: National) -> Quote
    ensures { quote_of result ≡ national_quote (national_of q) (quote_of old) }
{
    Quote {
        nationalbid: price::natural(q.bid),
        nationalask: price::natural(q.ask),
        ..old
    }
}

// A local quote taken in; one of a leg beyond the strategy's changes nothing.
// One function for both kinds would take a closure, and be no shorter with its two calls.
pub fn put_local(words: &mut Words, q: Local)
    ensures { WordsBecome words (λ s. local_in s (local_of q)) }
{
    let k = q.leg as usize;
    if k < state::leg_count(words) {
        put_quote(words, k, with_local(quote_at(words, k), q));
    }
}

// The same for a national one.
pub fn put_national(words: &mut Words, q: National)
    ensures { WordsBecome words (λ s. national_in s (national_of q)) }
{
    let k = q.leg as usize;
    if k < state::leg_count(words) {
        put_quote(words, k, with_national(quote_at(words, k), q));
    }
}
