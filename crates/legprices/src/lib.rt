// Document 02, M-106: the leg prices of fill records.
#![tactic(auto)]

ghost use Rattle.std.specs.Prelude.{◌≡◌, true, ◌≤◌};
ghost use Rattle.records.specs.Records.{most_given};
ghost use Rattle.legprices.specs.Books.{Books};
ghost use Rattle.legprices.specs.Going.{Held, FoundIn, Passed};

use state::Words;

mod quoted;
mod search;
mod sums;

// Where a pass over records stands.
#[derive(Clone, Copy)]
struct Pass {
    // The units of the records of the legs so far, up to the greatest word, if there are such records.
    pub taken: Option<u32>,
    // Whether the ranges and tables are those of the quotes now.
    pub fresh: bool,
    // The price last looked for, with its prices found: as a record counts them, 0 for none, or one more than there are.
    pub price: u64,
    pub count: u64,
}

// The ranges of the legs: whether a cent of each counts for or against a buyer of the strategy, its ratio, its bid, and how many cents its ask is above.
// An array for each, not one of legs: the tables are made of ratios and widths alone.
#[derive(Clone, Copy)]
struct Ranges {
    pub plus: [u32; 4],
    pub ratios: [u32; 4],
    pub bids: [u32; 4],
    pub widths: [u32; 4],
    pub count: usize,
}

// What a pass fills and looks into: the ranges of the legs, if all are near, the tables of their sums, and the prices last found.
#[derive(Drop)]
struct Room {
    pub ranges: Option<Ranges>,
    pub bits: [u64; 44],
    pub prices: [u64; 4],
}

// ---- a record of an entry

// The leg prices of a price, with new ranges and tables.
fn renewed(words: &Words, buy: bool, p: Pass, price: u64, r: &mut Room) -> Pass
    requires { Held words.now buy p r.old × (price ≤ most_given) }
    ensures { FoundIn words.now buy p price result r.new }
{
    r.ranges = quoted::ranges(words, buy, p.taken);
    let count = match &r.ranges {
        Some(legs) => {
            sums::make(legs, &mut r.bits);
            search::find(legs, &r.bits, price, &mut r.prices)
        }
        None => 0,
    };
    Pass {
        fresh: true,
        price,
        count,
        ..p
    }
}

// The same with the ranges and tables as they are: no search for the price last looked for, nor where a leg is not near.
fn again(words: &Words, buy: bool, p: Pass, price: u64, r: &mut Room) -> Pass
    requires { Held words.now buy p r.old × (price ≤ most_given) × (p.fresh ≡ true) }
    ensures { FoundIn words.now buy p price result r.new }
{
    let Some(legs) = &r.ranges else {
        return p;
    };
    if p.price == price {
        return p;
    }
    let count = search::find(legs, &r.bits, price, &mut r.prices);
    Pass { price, count, ..p }
}

// The leg prices of a price by the quotes now.
fn entry_prices(words: &Words, buy: bool, p: Pass, price: u64, r: &mut Room) -> Pass
    requires { Held words.now buy p r.old × (price ≤ most_given) }
    ensures { FoundIn words.now buy p price result r.new }
{
    if p.fresh {
        again(words, buy, p, price, r)
    } else {
        renewed(words, buy, p, price, r)
    }
}

// ---- the records of a turn

// The leg prices of the record at a place: a record of the legs shows the prices taken and lowers the quotes for the records after it.
fn book_one(words: &Words, list: &mut [u64], j: usize, buy: bool, p: Pass, r: &mut Room) -> Pass
    requires { Held words.now buy p r.old }
    ensures { Held words.now buy result r.new
        × Passed words.now buy p result list.old list.new j }
{
    if records::is_legs(list, j) {
        let units = records::units_at(list, j);
        let count = quoted::prices_taken(words, buy, p.taken, &mut r.prices);
        records::put_prices(list, j, count, &r.prices);
        return Pass {
            taken: Some(p.taken.unwrap_or(0).saturating_add(units)),
            fresh: false,
            price: 0,
            count: 0,
        };
    }
    let price = records::price_at(list, j);
    let next = entry_prices(words, buy, p, price, r);
    records::put_prices(list, j, next.count, &r.prices);
    next
}

// The leg prices of the records of a turn from place `at` to before `end` of the list, for a buyer or a seller; the state has the quotes as the turn begins.
pub fn book(words: &Words, list: &mut [u64], at: usize, end: usize, buy: bool)
    ensures { Books words list at end buy }
{
    let mut r = Room {
        ranges: None,
        bits: [0; 44],
        prices: [0; 4],
    };
    let mut p = Pass {
        taken: None,
        fresh: false,
        price: 0,
        count: 0,
    };
    for j in at..end {
        p = book_one(words, list, j, buy, p, &mut r);
    }
}
