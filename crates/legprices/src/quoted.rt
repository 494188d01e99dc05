// What the legs are quoted as a turn goes on: the prices that they give, and the ranges that an entry's prices are searched in.
ghost use Rattle.std.specs.Prelude.{◌≡◌, not, length};
ghost use Rattle.rules.specs.Basics.{pick};
ghost use Rattle.rules.specs.LegPrices.{priced, prices_taken};
ghost use Rattle.state.specs.View.{legs_of};
ghost use Rattle.quotes.specs.Ranges.{range_in};
ghost use Rattle.records.specs.Records.{prices_from};
ghost use Rattle.legprices.specs.Quoted.{quotes_now, price_used, is_near, Ranged};

use crate::Ranges;
use quotes::Range;
use state::Words;
use types::Quote;

// ---- a record of the legs

// Whether a buyer or a seller uses the ask of a leg.
fn uses_ask(buy: bool, plus: bool) -> bool
    ensures { result ≡ pick buy plus (not plus) }
{
    if buy { plus } else { !plus }
}

// The price of the leg side used.
fn price_used(buy: bool, r: Range) -> u64
    ensures { result ≡ price_used buy (range_in r) }
{
    if uses_ask(buy, r.plus) {
        u64::from(r.ask)
    } else {
        u64::from(r.bid)
    }
}

// "Fills against legs show the prices taken": one more than there are legs, and the price of each.
pub fn prices_taken(words: &Words, buy: bool, taken: Option<u32>, prices: &mut [u64; 4]) -> u64
    ensures { (length prices.new ≡ 4)
        × (prices_from result prices.new ≡ priced (prices_taken buy (legs_of words.now) (quotes_now words.now buy taken))) }
{
    let n = state::leg_count(words);
    for k in 0..n {
        prices[k] = price_used(buy, quotes::range_at(words, k, buy, taken));
    }
    n as u64 + 1
}

// ---- a record of an entry

// Whether a leg has both sides, its ask not below its bid and not more than 50 cents above it.
fn is_near(bid: u32, ask: u32) -> bool
    ensures { result ≡ is_near bid ask }
{
    if bid == 0 {
        return false;
    }
    if ask < bid {
        return false;
    }
    ask - bid <= Quote::MOST_WIDE
}

// The ranges of the legs, if all are near; where one is not, no entry's record has leg prices.
pub fn ranges(words: &Words, buy: bool, taken: Option<u32>) -> Option<Ranges>
    ensures { Ranged words.now buy taken result }
{
    let n = state::leg_count(words);
    let mut r = Ranges {
        plus: [0; 4],
        ratios: [0; 4],
        bids: [0; 4],
        widths: [0; 4],
        count: n,
    };
    for k in 0..n {
        let g = quotes::range_at(words, k, buy, taken);
        if !is_near(g.bid, g.ask) {
            return None;
        }
        r.plus[k] = state::word_of(g.plus);
        r.ratios[k] = g.ratio;
        r.bids[k] = g.bid;
        r.widths[k] = g.ask - g.bid;
    }
    Some(r)
}
