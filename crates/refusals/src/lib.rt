// Document 01, "Where a message is turned back": the rows for messages, read from the top, in the words of a state.
#![tactic(auto)]

ghost use Rattle.std.specs.Prelude.{◌≡◌};
ghost use Rattle.rules.specs.Basics.{pick, between, first_of};
ghost use Rattle.rules.specs.State.{reached};
ghost use Rattle.rules.specs.Refusals.{is_clock, good_fields, crossed, every_row, local_row, national_row, order_row, response_row, modify_row, cancel_row, reduce_row, kind_row, refusal};
ghost use Rattle.types.specs.Refusals.{number_in};
ghost use Rattle.types.specs.View.{local_of, national_of, order_terms, response_terms, change_of, body_of, message_of};
ghost use Rattle.state.specs.View.{clock_of};
ghost use Rattle.state.specs.Lent.{Tells, TellsBoth};

use state::{Auction, Book, Clock, Longs, Words};
use types::{
    Body, Cancel, Fill, Leg, Local, Message, Modify, National, Order, Reduce, Refusal, Response,
};

// ---- quotes

// "both local sides, bid not below ask".
fn is_crossed(q: Local) -> bool
    ensures { result ≡ crossed (local_of q) }
{
    let bid = price::natural(q.bid);
    let ask = price::natural(q.ask);
    (0 < bid) & (0 < ask) & (ask <= bid)
}

// "20 no such leg; 21 price or size; 22 both local sides, bid not below ask".
fn local_row(words: &Words, q: Local) -> Result<(), Refusal>
    ensures { Tells words (λ s. number_in result ≡ first_of (local_row s (local_of q))) }
{
    let legs = state::leg_count(words);
    let bid = price::good_local(q.bid, q.bidsize);
    let ask = price::good_local(q.ask, q.asksize);
    Refusal::NoLeg.when(legs <= q.leg as usize)?;
    Refusal::PriceOrSize.when(!(bid & ask))?;
    Refusal::Crossed.when(is_crossed(q))
}

// The same for national sides, which "may lock or cross".
fn national_row(words: &Words, q: National) -> Result<(), Refusal>
    ensures { Tells words (λ s. number_in result ≡ first_of (national_row s (national_of q))) }
{
    let legs = state::leg_count(words);
    let bid = price::good_national(q.bid);
    let ask = price::good_national(q.ask);
    Refusal::NoLeg.when(legs <= q.leg as usize)?;
    Refusal::PriceOrSize.when(!(bid & ask))
}

// ---- orders and responses

// "side, .. limit, or id or participant 0, or units not 1 to 999,999".
fn good_fields(side: u8, id: u32, participant: u32, units: u32, cents: i32) -> bool
    ensures { result ≡ good_fields side id participant units cents }
{
    let limit = price::is_limit(cents);
    let sided = (side == Leg::B) | (side == Leg::S);
    let some = (1 <= units) & (units <= Order::MOST_UNITS);
    sided & limit & (0 < id) & (0 < participant) & some
}

// "account (1 customer, 2 not)".
fn good_account(account: u8) -> bool
    ensures { result ≡ between 1 account 2 }
{
    (Order::CUSTOMER <= account) & (account <= Order::OTHER)
}

// "30 side, account, limit, or id or participant 0, or units not 1 to 999,999; 31 id open as order or response; 32 32 orders open; 33 filter".
fn order_row(words: &Words, o: Order) -> Result<(), Refusal>
    ensures { Tells words (λ s. number_in result ≡ first_of (order_row s (order_terms o))) }
{
    let account = good_account(o.account);
    let fields = good_fields(o.side, o.id, o.participant, o.units, o.price);
    Refusal::OrderFields.when(!(account & fields))?;
    Refusal::OrderId.when(book::is_open(words, o.id))?;
    Refusal::FullOrders.when(Book::MOST_ORDERS <= book::open_counts(words).orders)?;
    let far = quotes::filtered(words, o.side == Leg::B, price::biased(o.price));
    Refusal::Filter.when(far)
}

// "40 no auction; 41 as 30, over the fields used; 42 new: id open; 43 new: 32 open".
fn response_row(words: &Words, t: Response) -> Result<(), Refusal>
    ensures { Tells words (λ s. number_in result ≡ first_of (response_row s (response_terms t))) }
{
    let account = good_account(t.account);
    let fields = good_fields(t.side, t.id, t.participant, t.units, t.price);
    Refusal::NoAuction.when(!state::is_pending(words))?;
    Refusal::ResponseFields.when(!(account & fields))?;
    Refusal::ResponseId.when(book::is_open(words, t.id))?;
    Refusal::FullResponses.when(Book::MOST_RESPONSES <= book::open_counts(words).responses)
}

// "42 .. modify: no response of that id and participant".
fn modify_row(words: &Words, t: Modify) -> Result<(), Refusal>
    ensures { Tells words (λ s. number_in result ≡ first_of (modify_row s (change_of t))) }
{
    let fields = good_fields(t.side, t.id, t.participant, t.units, t.price);
    Refusal::NoAuction.when(!state::is_pending(words))?;
    Refusal::ResponseFields.when(!fields)?;
    let known = book::standing_of(words, t.id, t.participant);
    Refusal::ResponseId.when(!known.response)
}

// "50 no open order of that id and participant".
fn cancel_row(words: &Words, t: Cancel) -> Result<(), Refusal>
    ensures { Tells words (λ s. number_in result ≡ first_of (cancel_row s t.id t.participant)) }
{
    let known = book::standing_of(words, t.id, t.participant);
    Refusal::NoOrder.when(!known.order)
}

// M-105: "71, after 50, meets a reduce whose units are 0 or not below the open units".
fn reduce_row(words: &Words, t: Reduce) -> Result<(), Refusal>
    ensures { Tells words (λ s. number_in result ≡ first_of (reduce_row s t.id t.participant t.units)) }
{
    let known = book::standing_of(words, t.id, t.participant);
    Refusal::NoOrder.when(!known.order)?;
    Refusal::OpenUnits.when((t.units == 0) | (book::units_of(words, t.id) <= t.units))
}

// The row of the message's kind; a clock has none.
fn kind_row(words: &Words, b: Body) -> Result<(), Refusal>
    ensures { Tells words (λ s. number_in result ≡ first_of (kind_row s (body_of b))) }
{
    match b {
        Body::Local(q) => local_row(words, q),
        Body::National(q) => national_row(words, q),
        Body::Order(o) => order_row(words, o),
        Body::Response(t) => response_row(words, t),
        Body::Modify(t) => modify_row(words, t),
        Body::Cancel(t) => cancel_row(words, t),
        Body::Clock => Ok(()),
        Body::Reduce(t) => reduce_row(words, t),
    }
}

// ---- every message

// Whether a message is a clock.
fn is_clock(b: Body) -> bool
    ensures { result ≡ is_clock (body_of b) }
{
    match b {
        Body::Local(q) => false,
        Body::National(q) => false,
        Body::Order(o) => false,
        Body::Response(t) => false,
        Body::Modify(t) => false,
        Body::Cancel(t) => false,
        Body::Clock => true,
        Body::Reduce(t) => false,
    }
}

// "deadline reached".
pub fn is_reached(longs: &Longs, words: &Words, time: u64) -> bool
    ensures { TellsBoth longs.now words.now (λ s. result ≡ reached s.auction time) }
{
    state::is_set(words[Auction::PENDING]) & (longs[Auction::DEADLINE] <= time)
}

// The last accepted time.
fn last_time(longs: &Longs) -> u64
    ensures { result ≡ (clock_of longs.now).time }
{
    longs[Clock::TIME].min(Clock::MOST_TIME)
}

// "10 fill list under 2,000 places; 11 time above 10^15 or before the last accepted time; 12 next number above 10^15; 13 deadline reached and not a clock".
fn every_row(longs: &Longs, words: &Words, m: Message, room: usize) -> Result<(), Refusal>
    ensures { TellsBoth longs.now words.now (λ s. number_in result ≡ first_of (every_row s (message_of m) room)) }
{
    let body = m.body;
    let old = m.time < last_time(longs);
    Refusal::ShortList.when(room < Fill::LEAST_ROOM)?;
    Refusal::Time.when((Clock::MOST_TIME < m.time) | old)?;
    Refusal::NextNumber.when(Clock::MOST_NUMBER < longs[Clock::NEXT])?;
    Refusal::Deadline.when(is_reached(longs, words, m.time) & !is_clock(body))
}

// The row that turns a message back, given the length of its fill list.
pub fn refusal(longs: &Longs, words: &Words, m: Message, room: usize) -> Result<(), Refusal>
    ensures { TellsBoth longs.now words.now (λ s. number_in result ≡ refusal s (message_of m) room) }
{
    every_row(longs, words, m, room)?;
    let body = m.body;
    kind_row(words, body)
}
