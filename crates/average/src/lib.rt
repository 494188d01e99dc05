// M-102: the average price of an order over the records of a message, in a lent list. No sum passes 64 bits, whatever the list holds: a sum of price × units stands as quotient and remainder by the order's units.
#![tactic(auto)]

ghost use Rattle.std.specs.Prelude.{◌≡◌, not, ◌+◌, ◌*◌, ◌<◌, ◌≤◌};
ghost use Rattle.rules.specs.Prices.{biased};
ghost use Rattle.rules.specs.Refusals.{least_room};
ghost use Rattle.rules.specs.Average.{units_for};
ghost use Rattle.types.specs.View.{from};
ghost use Rattle.records.specs.Records.{record_at};
ghost use Rattle.average.specs.Sums.{named, units_named, paid_for};
ghost use Rattle.average.specs.Parts.{Divides, Fits, whole, Whole, IsAverage};

use types::Fill;

// An average: the quotient and the remainder.
#[derive(Clone, Copy, PartialEq, Eq)]
pub struct Average {
    pub quotient: i64,
    pub remainder: u64,
}

// A number by its quotient and remainder.
#[derive(Clone, Copy)]
struct Parts {
    pub quotient: u64,
    pub remainder: u64,
}

impl Parts {
    // The times that a number is taken at once, so that a remainder taken as often fits 64 bits.
    pub const MOST_TIMES: u64 = 65_536;
}

// ---- numbers by their parts

// The parts of a number.
fn parts_of(units: u64, x: u64) -> Parts
    requires { 0 < units }
    ensures { Whole units x result }
{
    Parts {
        quotient: x / units,
        remainder: x % units,
    }
}

// The sum of two numbers.
fn plus(units: u64, a: Parts, b: Parts) -> Parts
    requires { Divides units × (a.remainder < units) × (b.remainder < units) × Fits units (whole units a + whole units b) }
    ensures { Whole units (whole units a + whole units b) result }
{
    let quotient = a.quotient + b.quotient;
    let remainder = a.remainder + b.remainder;
    if remainder < units {
        return Parts {
            quotient,
            remainder,
        };
    }
    Parts {
        quotient: quotient + 1,
        remainder: remainder - units,
    }
}

// A number taken so many times.
fn times(units: u64, a: Parts, k: u64) -> Parts
    requires { Divides units × (a.remainder < units) × (k ≤ 65_536) × Fits units (whole units a * k) }
    ensures { Whole units (whole units a * k) result }
{
    let remainder = a.remainder * k;
    Parts {
        quotient: a.quotient * k + remainder / units,
        remainder: remainder % units,
    }
}

// Price × units of a record, by the units of the order, which are no fewer.
fn paid(units: u64, price: u64, given: u32) -> Parts
    requires { Divides units × (given ≤ units) }
    ensures { Whole units (price * given) result }
{
    let n = given as u64;
    let one = parts_of(units, price);
    let most = times(units, one, n / Parts::MOST_TIMES);
    let high = times(units, most, Parts::MOST_TIMES);
    let low = times(units, one, n % Parts::MOST_TIMES);
    plus(units, high, low)
}

// ---- the records of an order

// The units that a record gives an order: none where it names another.
fn units_named(list: &[u64], j: usize, order: u32) -> u32
    ensures { result ≡ units_named order (record_at list.now j) }
{
    if records::order_at(list, j) == order {
        return records::units_at(list, j);
    }
    0
}

// The units of an order over the first n records.
fn units_of(list: &[u64], n: usize, order: u32) -> u64
    requires { n ≤ least_room }
    ensures { (result ≡ units_for order (from (record_at list.now) 0 n)) × (result ≤ n * 4_294_967_295) }
{
    let mut units: u64 = 0;
    for i in 0..n {
        units += units_named(list, i, order) as u64;
    }
    units
}

// A sum with price × units of a record, where it names the order.
fn with_record(list: &[u64], j: usize, order: u32, units: u64, total: Parts) -> Parts
    requires { Divides units × (total.remainder < units) × (units_named order (record_at list.now j) ≤ units) × Fits units (whole units total + biased (record_at list.now j).price * units_named order (record_at list.now j)) }
    ensures { Whole units (whole units total + biased (record_at list.now j).price * units_named order (record_at list.now j)) result }
{
    let given = units_named(list, j, order);
    if given == 0 {
        return total;
    }
    let part = paid(units, records::price_at(list, j), given);
    plus(units, total, part)
}

// The sum of biased price × units over the same records, by the units.
fn sum_of(list: &[u64], n: usize, order: u32, units: u64) -> Parts
    requires { Divides units × (units ≡ units_for order (from (record_at list.now) 0 n)) }
    ensures { Whole units (paid_for order (from (record_at list.now) 0 n)) result }
{
    let mut total = parts_of(units, 0);
    for i in 0..n {
        total = with_record(list, i, order, units, total);
    }
    total
}

// ---- what others call

// The average of an order over the first n records of a list, of which a message has at most 2,000; "none" where none of them gives it units.
pub fn average_of(list: &[u64], n: usize, order: u32) -> Option<Average>
    ensures { IsAverage list.now n order result }
{
    let count = n.min(Fill::LEAST_ROOM);
    let units = units_of(list, count, order);
    if units == 0 {
        return None;
    }
    let total = sum_of(list, count, order, units);
    Some(Average {
        quotient: price::cents(total.quotient),
        remainder: total.remainder,
    })
}

// Whether no record before a place names the order of the record there.
pub fn is_first(list: &[u64], j: usize) -> bool
    ensures { result ≡ not (named (record_at list.now j).order (from (record_at list.now) 0 j)) }
{
    let order = records::order_at(list, j);
    for i in (0..j).rev() {
        if records::order_at(list, i) == order {
            return false;
        }
    }
    true
}
