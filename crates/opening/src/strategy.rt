// The row "Opening" of the table: what is asked of legs, ratios and settings.
ghost use Rattle.std.specs.Prelude.{◌≡◌, ◌&&◌, ◌+◌, ◌≤◌, ◌<◌};
ghost use Rattle.rules.specs.Basics.{all, between};
ghost use Rattle.rules.specs.Strategy.{good_side, good_mpv, all_pairs, near_ratio, gcd, gcd_all, good_settings, opening_refusal};
ghost use Rattle.types.specs.Refusals.{number_in};
ghost use Rattle.types.specs.View.{leg_of, leg_at, settings_of, opening_of, from};
ghost use Rattle.opening.specs.Asked.{LegMarked, PairMarked};

use state::Clock;
use types::{Amounts, Leg, Opening, Refusal, Settings};

// What the table asks of each leg: number 2, 3, 5 and 6.
#[derive(Clone, Copy)]
struct LegMarks {
    symbol: bool,
    date: bool,
    ratio: bool,
    sides: bool,
}

impl LegMarks {
    // All of it.
    const ALL: LegMarks = LegMarks {
        symbol: true,
        date: true,
        ratio: true,
        sides: true,
    };
}

// What it asks of each two legs: number 4, twice, and 5.
#[derive(Clone, Copy)]
struct PairMarks {
    root: bool,
    symbol: bool,
    ratio: bool,
}

impl PairMarks {
    // All of it.
    const ALL: PairMarks = PairMarks {
        root: true,
        symbol: true,
        ratio: true,
    };
}

// "Ratios are 1 to 9".
fn good_ratio(ratio: u8) -> bool
    ensures { result ≡ between 1 ratio 9 }
{
    (Leg::LEAST_RATIO <= ratio) & (ratio <= Leg::MOST_RATIO)
}

// "side B or S".
fn good_side(side: u8) -> bool
    ensures { result ≡ good_side side }
{
    (side == Leg::B) | (side == Leg::S)
}

// "a minimum price step (MPV, 002) of 1, 5 or 10 cents".
fn good_mpv(mpv: u8) -> bool
    ensures { result ≡ good_mpv mpv }
{
    (mpv == Leg::CENT) | ((mpv == Leg::NICKEL) | (mpv == Leg::DIME))
}

// What a leg keeps of it.
fn keeps(leg: Leg) -> LegMarks
    ensures { LegMarked (λ b p. b ≡ p (leg_of leg)) result }
{
    let symbol = leg.symbol;
    let j = series::judge(symbol);
    LegMarks {
        symbol: j.good,
        date: j.dated,
        ratio: good_ratio(leg.ratio),
        sides: good_side(leg.side) & good_mpv(leg.mpv),
    }
}

// What both keep. Field by field here and in `both_hold`: as an array of flags they would be one function, but have numbers for names.
fn both_keep(a: LegMarks, b: LegMarks) -> LegMarks
    ensures { (result.symbol ≡ (a.symbol && b.symbol)) × (result.date ≡ (a.date && b.date)) × (result.ratio ≡ (a.ratio && b.ratio)) × (result.sides ≡ (a.sides && b.sides)) }
{
    LegMarks {
        symbol: a.symbol & b.symbol,
        date: a.date & b.date,
        ratio: a.ratio & b.ratio,
        sides: a.sides & b.sides,
    }
}

// What all legs keep.
fn all_keep(o: Opening) -> LegMarks
    requires { o.count ≤ 4 }
    ensures { LegMarked (λ b p. b ≡ all p (opening_of o).legs) result }
{
    let count = o.count;
    let mut all = LegMarks::ALL;
    for at in 0..count {
        all = both_keep(all, keeps(o.legs[at]));
    }
    all
}

// "For any two legs neither ratio is above three times the other (002)".
fn near(a: Leg, b: Leg) -> bool
    ensures { result ≡ near_ratio (leg_of a) (leg_of b) }
{
    let first = a.ratio as u32;
    let second = b.ratio as u32;
    (first <= Leg::MOST_TIMES * second) & (second <= Leg::MOST_TIMES * first)
}

// What holds between two legs.
fn holds(a: Leg, b: Leg) -> PairMarks
    ensures { PairMarked (λ t q. t ≡ q (leg_of a) (leg_of b)) result }
{
    let first = a.symbol;
    let second = b.symbol;
    PairMarks {
        root: series::same_root(first, second),
        symbol: !series::same_symbol(first, second),
        ratio: near(a, b),
    }
}

// What holds in both.
fn both_hold(a: PairMarks, b: PairMarks) -> PairMarks
    ensures { (result.root ≡ (a.root && b.root)) × (result.symbol ≡ (a.symbol && b.symbol)) × (result.ratio ≡ (a.ratio && b.ratio)) }
{
    PairMarks {
        root: a.root & b.root,
        symbol: a.symbol & b.symbol,
        ratio: a.ratio & b.ratio,
    }
}

// What holds between a leg and all later ones.
fn later_hold(o: Opening, k: usize) -> PairMarks
    requires { (k < o.count) × (o.count ≤ 4) }
    ensures { PairMarked (λ b q. b ≡ all (q (leg_at o k)) (from (leg_at o) (k + 1) o.count)) result }
{
    let count = o.count;
    let leg = o.legs[k];
    let mut all = PairMarks::ALL;
    for at in k + 1..count {
        all = both_hold(all, holds(leg, o.legs[at]));
    }
    all
}

// What holds between every two legs. A loop of `for`, not `all`: several marks are asked in one pass, each for a row of its own.
fn pairs_hold(o: Opening) -> PairMarks
    requires { o.count ≤ 4 }
    ensures { PairMarked (λ b q. b ≡ all_pairs q (opening_of o).legs) result }
{
    let count = o.count;
    let mut all = PairMarks::ALL;
    for at in 0..count {
        all = both_hold(all, later_hold(o, at));
    }
    all
}

// "worked out by Euclid's rule, each step calling itself on a smaller pair".
fn gcd(a: u8, b: u8) -> u8
    ensures { result ≡ gcd a b }
{
    if b == 0 { a } else { gcd(b, a % b) }
}

// "The greatest common divisor of the ratios", the last leg first.
fn gcd_all(o: Opening) -> u8
    requires { o.count ≤ 4 }
    ensures { result ≡ gcd_all (opening_of o).legs }
{
    let mut divisor: u8 = 0;
    for at in (0..o.count).rev() {
        divisor = gcd(o.legs[at].ratio, divisor);
    }
    divisor
}

// Number 7's condition.
fn good_settings(c: Settings) -> bool
    ensures { result ≡ good_settings (settings_of c) }
{
    let interval = (Settings::LEAST_INTERVAL <= c.interval)
        & (c.interval <= Settings::MOST_INTERVAL);
    let legs = (Settings::LEAST_LEGS <= c.legs) & (c.legs <= Settings::MOST_LEGS);
    let minimum = (Settings::LEAST_MINIMUM <= c.minimum) & (c.minimum <= Settings::MOST_MINIMUM);
    interval
        & (c.distance <= Settings::MOST_DISTANCE)
        & legs
        & minimum
        & (c.amounts.one <= Amounts::MOST)
        & (c.amounts.five <= Amounts::MOST)
        & (c.amounts.ten <= Amounts::MOST)
        & (c.first <= Clock::MOST_NUMBER)
        & (c.time <= Clock::MOST_TIME)
}

// "2 to 4 legs".
fn good_count(count: usize) -> bool
    ensures { result ≡ between 2 count 4 }
{
    (Opening::LEAST_LEGS <= count) & (count <= Opening::MOST_LEGS)
}

// The row that turns an opening back: "First that applies, reading down".
pub fn refusal(o: Opening) -> Result<(), Refusal>
    ensures { number_in result ≡ opening_refusal (opening_of o) }
{
    if !good_count(o.count) {
        return Err(Refusal::LegCount);
    }
    let legs = all_keep(o);
    if !legs.symbol {
        return Err(Refusal::Symbol);
    }
    if !legs.date {
        return Err(Refusal::Date);
    }
    let pairs = pairs_hold(o);
    if !(pairs.root & pairs.symbol) {
        return Err(Refusal::Roots);
    }
    if !(legs.ratio & pairs.ratio & (gcd_all(o) == 1)) {
        return Err(Refusal::Ratios);
    }
    if !legs.sides {
        return Err(Refusal::SideOrMpv);
    }
    if !good_settings(o.settings) {
        return Err(Refusal::Setting);
    }
    Ok(())
}
