// An opening, checked and stored in the two lent slices of a state, whatever they held.
#![tactic(auto)]

ghost use Rattle.std.specs.Prelude.{◌≡◌, ℕ, ◌≤◌, ◌<◌, get_or};
ghost use Rattle.rules.specs.Strategy.{opening_refusal};
ghost use Rattle.rules.specs.Run.{start_of};
ghost use Rattle.types.specs.Refusals.{number_in};
ghost use Rattle.types.specs.View.{no_leg, opening_of};
ghost use Rattle.state.specs.View.{state_of};
ghost use Rattle.state.specs.Stores.{stores};
ghost use Rattle.opening.specs.Opens.{IsOpened};
ghost use Rattle.opening.specs.Stored.{HasSymbol, HasLeg, StoresLeg, NothingQuoted, count_stores, setting_stores, clock_stores};

use state::{Auction, Book, Clock, Legs, Longs, Market, Settings, Words};
use types::{Leg, Opening, Refusal};

mod strategy;

// ---- legs

// A leg's symbol, a word for each byte.
fn put_symbol(words: &mut Words, k: usize, symbol: [u8; 21])
    requires { k < 4 }
    ensures { HasSymbol k symbol words.old words.new }
{
    let start = Legs::SYMBOLS + Legs::SYMBOL_BYTES * k;
    for i in 0..Legs::SYMBOL_BYTES {
        words[start + i] = u32::from(symbol[i]);
    }
}

// A leg.
fn put_leg(words: &mut Words, k: usize, leg: Leg)
    requires { k < 4 }
    ensures { StoresLeg k leg words.old words.new }
{
    let symbol = leg.symbol;
    words[Legs::SIDES + k] = leg.side as u32;
    words[Legs::RATIOS + k] = leg.ratio as u32;
    words[Legs::MPVS + k] = leg.mpv as u32;
    put_symbol(words, k, symbol);
}

// All four places for legs, those beyond the count too.
fn put_legs(words: &mut Words, o: Opening)
    ensures { (k : ℕ) → k < 4 → HasLeg words.new k (get_or o.legs k no_leg) }
{
    for k in 0..4 {
        put_leg(words, k, o.legs[k]);
    }
}

// ---- the rest

// "all leg sides absent".
fn clear_quotes(words: &mut Words)
    ensures { NothingQuoted words.old words.new }
{
    words[Market::BIDS..Legs::SIDES].fill(0);
}

// The settings that are words.
fn put_settings(words: &mut Words, c: types::Settings)
    ensures { words.new ≡ stores words.old (setting_stores c) }
{
    words[Settings::MINIMUM] = c.minimum;
    words[Settings::INTERVAL] = c.interval as u32;
    words[Settings::DISTANCE] = c.distance as u32;
    words[Settings::MOST_LEGS] = c.legs as u32;
    words[Settings::AMOUNTS] = c.amounts.one as u32;
    words[Settings::AMOUNTS + 1] = c.amounts.five as u32;
    words[Settings::AMOUNTS + 2] = c.amounts.ten as u32;
}

// "nothing open, no auction"; the leg count.
fn put_counts(words: &mut Words, count: usize)
    requires { count ≤ 4 }
    ensures { words.new ≡ stores words.old (count_stores count) }
{
    words[Book::COUNT] = 0;
    words[Legs::COUNT] = count as u32;
    words[Auction::PENDING] = 0;
}

// The clock as it is set, and the settings that are longs.
fn put_clock(longs: &mut Longs, c: types::Settings)
    ensures { longs.new ≡ stores longs.old (clock_stores c) }
{
    longs[Clock::NEXT] = c.first;
    longs[Clock::TIME] = c.time;
    longs[Settings::FIRST_NUMBER] = c.first;
    longs[Settings::OPENING_TIME] = c.time;
}

// The state that an accepted opening begins with.
fn start(longs: &mut Longs, words: &mut Words, o: Opening)
    requires { opening_refusal (opening_of o) ≡ 0 }
    ensures { state_of longs.new words.new ≡ start_of (opening_of o) }
{
    put_legs(words, o);
    clear_quotes(words);
    put_counts(words, o.count);
    put_settings(words, o.settings);
    put_clock(longs, o.settings);
}

// ---- the opening

// An opening: the slices hold its state; or the row that refuses it, that of a short list for slices that are no state's, and they are as they were.
pub fn open(longs: &mut [u64], words: &mut [u32], o: Opening) -> Result<(), Refusal>
    ensures { IsOpened longs words (opening_of o) (number_in result) }
{
    let Some(longs) = longs.as_mut_array() else {
        return Err(Refusal::ShortList);
    };
    let Some(words) = words.as_mut_array() else {
        return Err(Refusal::ShortList);
    };
    strategy::refusal(o)?;
    start(longs, words, o);
    Ok(())
}
