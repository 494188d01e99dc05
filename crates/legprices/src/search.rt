// "the lowest price on leg 0 is taken, then on leg 1, and so on": the search over the sums that the later legs can make.
ghost use Rattle.std.specs.Prelude.{◌≡◌, ◌&&◌, ℕ, ◌+◌, ◌-◌, ◌*◌, ◌≤◌, ◌<◌, leb, length};
ghost use Rattle.rules.specs.Basics.{pick};
ghost use Rattle.rules.specs.Prices.{most_cents};
ghost use Rattle.rules.specs.Strategy.{most_ratio};
ghost use Rattle.rules.specs.LegPrices.{search, most_wide};
ghost use Rattle.records.specs.Records.{most_given, prices_from};
ghost use Rattle.legprices.specs.Sums.{reach, spans_from, Bounded, Ready};
ghost use Rattle.legprices.specs.Ranges.{ranges_in};
ghost use Rattle.legprices.specs.Found.{counts, found, least_paid, most_got, greatest, first, IsFirst, fits};

use crate::{Ranges, sums};
use types::Order;

// One of two numbers.
fn either(set: bool, a: u64, b: u64) -> u64
    ensures { (result ≡ pick set a b) × (result ≤ a + b) }
{
    if set { a } else { b }
}

// What some cents of a leg count.
fn times(ratio: u64, cents: u64) -> u64
    requires { (ratio ≤ most_ratio) × (cents ≤ 10000000000) }
    ensures { (result ≡ ratio * cents) × (result ≤ 90000000000) }
{
    ratio * cents
}

// ---- the sum to make

// The least that is paid, the most that is got, and the greatest sum that the legs can make.
#[derive(Clone, Copy)]
struct Ends {
    pub paid: u64,
    pub got: u64,
    pub most: u64,
}

// Those of some legs.
fn ends_of(legs: &Ranges) -> Ends
    requires { Bounded legs.now }
    ensures { (result.paid ≡ least_paid (ranges_in legs.now)) × (result.paid ≤ 1000000000000)
        × (result.got ≡ most_got (ranges_in legs.now)) × (result.got ≤ 1000000000000)
        × (result.most ≡ greatest (spans_from legs.now 0)) }
{
    let mut paid: u64 = 0;
    let mut got: u64 = 0;
    let mut most: u64 = 0;
    for i in 0..legs.count {
        let up = state::is_set(legs.plus[i]);
        let ratio = u64::from(legs.ratios[i]);
        let bid = u64::from(legs.bids[i]);
        let width = u64::from(legs.widths[i]);
        paid += either(up, times(ratio, bid), 0);
        got += either(up, 0, times(ratio, bid + width));
        most += times(ratio, width);
    }
    Ends { paid, got, most }
}

// ---- the lowest price of a leg

// What a price x above the bid of a leg takes of a sum.
fn taken(plus: bool, ratio: u64, width: u64, x: u64) -> u64
    requires { (ratio ≤ most_ratio) × (width ≤ most_wide) × (x ≤ width) }
    ensures { result ≡ ratio * counts plus width x }
{
    times(ratio, either(plus, x, width - x))
}

// Whether the legs from place i on can make what a part of a sum leaves.
fn leaves(legs: &Ranges, bits: &[u64; 44], i: usize, part: u64, s: u64) -> bool
    requires { Ready legs.now bits.now × (1 ≤ i) × (i ≤ legs.now.count) }
    ensures { result ≡ (leb part s && reach (spans_from legs.now i) (s - part)) }
{
    if s < part {
        return false;
    }
    sums::reaches(legs, bits, i, s - part)
}

// The first price from `at` to `end` above the bid that fits, where the later legs start at place i.
fn first_from(
    legs: &Ranges,
    bits: &[u64; 44],
    i: usize,
    plus: bool,
    ratio: u64,
    width: u64,
    at: u64,
    end: u64,
    s: u64,
) -> Option<u64>
    requires { Ready legs.now bits.now × (1 ≤ i) × (i ≤ legs.now.count)
        × (ratio ≤ most_ratio) × (width ≤ most_wide) × (at ≤ end) × (end ≤ width) }
    ensures { IsFirst result end (first (end + 1 - at) at (fits plus ratio width (spans_from legs.now i) s)) }
{
    for x in at..end + 1 {
        let part = taken(plus, ratio, width, x);
        if leaves(legs, bits, i, part, s) {
            return Some(x);
        }
    }
    None
}

// The fewest cents that may do: with fewer, more is left than the later legs can make.
fn at_least(ratio: u64, rest: u64, s: u64) -> u64
    ensures { (y : ℕ) → y < result → ratio * y + rest < s }
{
    if s <= rest {
        return 0;
    }
    if ratio < 2 {
        return s - rest;
    }
    (s - rest - 1) / ratio + 1
}

// The most cents that may do: more make too much.
fn at_most(ratio: u64, width: u64, s: u64) -> u64
    requires { (ratio ≤ most_ratio) × (width ≤ most_wide) }
    ensures { (result ≤ width) × ((y : ℕ) → result < y → y ≤ width → s < ratio * y) }
{
    if times(ratio, width) <= s {
        return width;
    }
    if ratio < 2 {
        return s;
    }
    s / ratio
}

// The lowest price of a leg above its bid that fits, where the later legs can make `rest`.
fn lowest(
    legs: &Ranges,
    bits: &[u64; 44],
    i: usize,
    plus: bool,
    ratio: u64,
    width: u64,
    rest: u64,
    s: u64,
) -> Option<u64>
    requires { Ready legs.now bits.now × (1 ≤ i) × (i ≤ legs.now.count)
        × (ratio ≤ most_ratio) × (width ≤ most_wide) × (rest ≡ greatest (spans_from legs.now i)) }
    ensures { IsFirst result width (first (width + 1) 0 (fits plus ratio width (spans_from legs.now i) s)) }
{
    let low = at_least(ratio, rest, s);
    let high = at_most(ratio, width, s);
    if high < low {
        return None;
    }
    let at = either(plus, low, width - high);
    let end = at + (high - low);
    first_from(legs, bits, i, plus, ratio, width, at, end, s)
}

// ---- leg by leg

// The first prices that make a sum: 0 where there are none, or one more than there are legs.
fn found(legs: &Ranges, bits: &[u64; 44], most: u64, sum: u64, prices: &mut [u64; 4]) -> u64
    requires { Ready legs.now bits.now × (most ≡ greatest (spans_from legs.now 0)) }
    ensures { prices_from result prices.new ≡ found (ranges_in legs.now) sum }
{
    let mut rest = most;
    let mut s = sum;
    for i in 0..legs.count {
        let up = state::is_set(legs.plus[i]);
        let ratio = u64::from(legs.ratios[i]);
        let width = u64::from(legs.widths[i]);
        rest -= times(ratio, width);
        let Some(x) = lowest(legs, bits, i + 1, up, ratio, width, rest, s) else {
            return 0;
        };
        prices[i] = u64::from(legs.bids[i]) + x;
        s -= taken(up, ratio, width, x);
    }
    if s == 0 {
        return (legs.count as u64) + 1;
    }
    0
}

// The leg prices of a biased price, with the tables of these legs: 0 where there are none, or one more than there are legs.
pub fn find(legs: &Ranges, bits: &[u64; 44], price: u64, prices: &mut [u64; 4]) -> u64
    requires { Ready legs.now bits.now × (price ≤ most_given) }
    ensures { (length prices.new ≡ 4)
        × (prices_from result prices.new ≡ search (ranges_in legs.now) most_cents price) }
{
    let ends = ends_of(legs);
    let paid = (Order::MOST_CENTS as u64) + ends.paid;
    let got = price + ends.got;
    if got < paid {
        return 0;
    }
    found(legs, bits, ends.most, got - paid, prices)
}
