// The fill records of a message in a lent list of numbers, as they come; and one of them read back.
#![tactic(auto)]

ghost use Rattle.std.specs.Prelude.{◌≡◌, List, [], ◌∷◌, ℕ, ◌+◌, ◌<◌, ltb, length};
ghost use Rattle.rules.specs.Basics.{pick};
ghost use Rattle.rules.specs.Prices.{biased};
ghost use Rattle.rules.specs.Turn.{entry};
ghost use Rattle.types.specs.View.{narrow, contra_from, held_legs};
ghost use Rattle.records.specs.Records.{record_from, width, record_in, record_at, prices_from, prices_in, prices_at, Holds, is_legs, number_at, Writes, Prices};

use types::{Contra, Fill, Rank};

// A record in the list.
#[derive(Drop)]
pub struct Record {}

impl Record {
    // Its numbers: number, order, rank, contra, biased price, units; 0 for no leg prices or one more than there are; and four leg prices.
    pub const NUMBERS: usize = 11;
}

// The number of an entry as contra: 0 is the legs.
pub fn contra_of(id: u32) -> u64
    ensures { contra_from result ≡ entry id }
{
    id as u64 + 1
}

// A record behind the first `at`, if there is room; how many there are then. Its leg prices come later.
pub fn put_record(
    list: &mut [u64],
    at: usize,
    number: u64,
    order: u32,
    rank: u32,
    contra: u64,
    price: u64,
    units: u32,
) -> usize
    ensures { Writes list at result (record_from number order rank contra price units ∷ []) }
{
    if at < list.len() / Record::NUMBERS {
        let b = at * Record::NUMBERS;
        list[b] = number;
        list[b + 1] = order as u64;
        list[b + 2] = rank as u64;
        list[b + 3] = contra;
        list[b + 4] = price;
        list[b + 5] = units as u64;
        return at + 1;
    }
    at
}

// The leg prices of the record at a place, if the list has it: 0 for none, or one more than there are, and four prices.
pub fn put_prices(list: &mut [u64], j: usize, n: u64, prices: &[u64; 4])
    ensures { Prices list.old j list.new (prices_from n prices.now) }
{
    if j < list.len() / Record::NUMBERS {
        let b = j * Record::NUMBERS;
        list[b + 6] = n;
        list[b + 7] = prices[0];
        list[b + 8] = prices[1];
        list[b + 9] = prices[2];
        list[b + 10] = prices[3];
    }
}

// ---- a record read back

// A number of 32 bits.
fn narrowed(n: u64) -> u32
    ensures { result ≡ narrow n }
{
    u32::try_from(n).unwrap_or(u32::MAX)
}

// Of how many legs there are prices, if there are any.
fn legs_from(n: u64) -> Option<u32>
    ensures { (ps : List ℕ) → length ps ≡ 4 → result ≡ held_legs (prices_from n ps) }
{
    let count = n.checked_sub(1)?;
    Some(narrowed(count.min(4)))
}

// The price of leg k, where there is one.
fn price_from(n: u64, k: u64, price: u64) -> u64
    requires { k < 4 }
    ensures { result ≡ pick (ltb (k + 1) n) price 0 }
{
    if k + 1 < n { price } else { 0 }
}

// A record of its numbers.
fn fill_from(numbers: &[u64]) -> Fill
    requires { length numbers.now ≡ width }
    ensures { Holds (record_in numbers.now 0) (prices_in numbers.now 0) result }
{
    let n = numbers[6];
    Fill {
        number: numbers[0],
        order: narrowed(numbers[1]),
        rank: Rank::from(numbers[2]),
        contra: Contra::from(numbers[3]),
        price: price::cents(numbers[4]),
        units: narrowed(numbers[5]),
        legs: legs_from(n),
        prices: [
            price_from(n, 0, numbers[7]),
            price_from(n, 1, numbers[8]),
            price_from(n, 2, numbers[9]),
            price_from(n, 3, numbers[10]),
        ],
    }
}

// The record at a place of a list with its leg prices; where the list has no such place, that of zeros.
pub fn fill_at(list: &[u64], j: usize) -> Fill
    ensures { Holds (record_at list.now j) (prices_at list.now j) result }
{
    if j < list.len() / Record::NUMBERS {
        let b = j * Record::NUMBERS;
        return fill_from(&list[b..b + Record::NUMBERS]);
    }
    fill_from(&[0; Record::NUMBERS])
}

// ---- one number of a record: a function for each that is asked for, by its name

fn number_at(list: &[u64], j: usize, k: usize) -> u64
    requires { k < width }
    ensures { result ≡ number_at list.now j k }
{
    if j < list.len() / Record::NUMBERS {
        return list[j * Record::NUMBERS + k];
    }
    0
}

// Whether it is of the legs.
pub fn is_legs(list: &[u64], j: usize) -> bool
    ensures { result ≡ is_legs (record_at list.now j).contra }
{
    number_at(list, j, 3) == 0
}

// The order that it names.
pub fn order_at(list: &[u64], j: usize) -> u32
    ensures { result ≡ (record_at list.now j).order }
{
    narrowed(number_at(list, j, 1))
}

// Its price, biased.
pub fn price_at(list: &[u64], j: usize) -> u64
    ensures { result ≡ biased (record_at list.now j).price }
{
    number_at(list, j, 4).min(Fill::MOST_BIASED)
}

// Its units.
pub fn units_at(list: &[u64], j: usize) -> u32
    ensures { result ≡ (record_at list.now j).units }
{
    narrowed(number_at(list, j, 5))
}
