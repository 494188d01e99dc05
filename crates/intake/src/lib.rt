// Document 01, "Order and auction life": a message taken in, in place: the state with it, and what it does to the auction.
#![tactic(auto)]

ghost use Rattle.std.specs.Prelude.{◌≡◌, ◌&&◌, [], ◌∷◌, ◌-◌, min, leb, length};
ghost use Rattle.rules.specs.Book.{Entry as Open, held, queued, answer, with_stage};
ghost use Rattle.rules.specs.State.{Pending, pending, with_auction, contra_prices};
ghost use Rattle.rules.specs.Auction.{eligible, auction_of as beginning, ends_by_order, joins, ends_by_legs, units_at, looked};
ghost use Rattle.rules.specs.Messages.{local, national, order, response, modify, cancel, clock, reduce};
ghost use Rattle.rules.specs.Step.{entry_of as new_entry, modified_entry, after_cancel, take_in, watched};
ghost use Rattle.types.specs.View.{order_terms, response_terms, change_of, local_of, national_of, body_of, derived_of};
ghost use Rattle.state.specs.View.{entry_of, clock_of, state_of};
ghost use Rattle.state.specs.Lent.{Tells, Becomes};
ghost use Rattle.intake.specs.Acts.{act_of, outside, during, TakesIn};

use state::{Auction, Clock, Entry, Longs, Settings, Stage, Words};
use types::{Body, Cancel, Cause, Derived, Leg, Local, Modify, National, Order, Reduce, Response};

// What a message does to the auction.
#[derive(Clone, Copy)]
pub enum Act {
    GoesOn,
    Begins,
    Joins,
    Ends(Cause),
}

// ---- eligibility and ends

// "its units reach the class minimum, the strategy has at most the class's leg count".
fn meets_class(words: &Words, units: u32) -> bool
    ensures { Tells words (λ s. result ≡ (leb s.strategy.settings.minimum units && leb (length s.strategy.legs) s.strategy.settings.most_legs)) }
{
    let legs = state::leg_count(words) as u32;
    (words[Settings::MINIMUM] <= units) & (legs <= words[Settings::MOST_LEGS])
}

// "It is eligible if ..".
fn is_eligible(words: &Words, buy: bool, price: u32, units: u32) -> bool
    ensures { Tells words (λ s. (o : Open) → o.buy ≡ buy → o.price ≡ price → o.units ≡ units → result ≡ eligible s o) }
{
    let distance = words[Settings::DISTANCE];
    let class = meets_class(words, units);
    let d = quotes::derived(words, buy);
    let far = price::is_beyond(!buy, u64::from(distance), price as u64, d.price);
    let front = book::in_front(words, buy, price);
    let live = book::near_live(words, buy, price, distance);
    class & front & (((0 < d.units) & !far) | live)
}

// "asking and eligible".
fn asks(words: &Words, wish: bool, buy: bool, price: u32, units: u32) -> bool
    ensures { Tells words (λ s. (o : Open) → o.buy ≡ buy → o.price ≡ price → o.units ≡ units → result ≡ (wish && eligible s o)) }
{
    if wish {
        return is_eligible(words, buy, price, units);
    }
    false
}

// "Same side, better than the initiator's limit".
fn ends_by_order(words: &Words, buy: bool, price: u32) -> bool
    ensures { Tells words (λ s. (p : Pending) (o : Open) → s.auction ≡ pending p → o.buy ≡ buy → o.price ≡ price → result ≡ ends_by_order s p o) }
{
    let side = state::is_set(words[Auction::BUY]);
    let better = book::beats(words, side, u64::from(price));
    book::same_side(side, buy) & better
}

// "Same side, equal or worse, asking and eligible".
fn is_joining(words: &Words, wish: bool, buy: bool, price: u32, units: u32) -> bool
    ensures { Tells words (λ s. (p : Pending) (o : Open) → s.auction ≡ pending p → o.buy ≡ buy → o.price ≡ price → o.units ≡ units → result ≡ joins s p wish o) }
{
    let side = state::is_set(words[Auction::BUY]);
    let same = book::same_side(side, buy);
    let asking = asks(words, wish, buy, price, units);
    same & asking
}

// "A local quote after which the derived price on the initiator's own side is strictly better than its limit".
fn ends_by_legs(words: &Words) -> bool
    ensures { Tells words (λ s. result ≡ ends_by_legs s s.auction) }
{
    if state::is_pending(words) {
        let side = state::is_set(words[Auction::BUY]);
        let d = quotes::derived(words, !side);
        let better = book::beats(words, side, d.price);
        return (0 < d.units) & better;
    }
    false
}

// ---- entries

// The number that a message took: one below the next.
fn number_of(longs: &Longs) -> u64
    ensures { result ≡ (clock_of longs.now).next - 1 }
{
    longs[Clock::NEXT].saturating_sub(1)
}

// A new order, "held".
fn new_order(o: Order, number: u64) -> Entry
    ensures { entry_of result ≡ new_entry (order_terms o) number held }
{
    Entry {
        arrival: number,
        id: o.id,
        participant: o.participant,
        price: price::biased(o.price),
        units: o.units,
        buy: state::word_of(o.side == Leg::B),
        customer: state::word_of(o.account == Order::CUSTOMER),
        stage: Stage::HELD,
    }
}

// A new response. Orders and responses are two structs, and one function of their fields would take all eight.
fn new_response(t: Response, number: u64) -> Entry
    ensures { entry_of result ≡ new_entry (response_terms t) number answer }
{
    Entry {
        arrival: number,
        id: t.id,
        participant: t.participant,
        price: price::biased(t.price),
        units: t.units,
        buy: state::word_of(t.side == Leg::B),
        customer: state::word_of(t.account == Order::CUSTOMER),
        stage: Stage::RESPONSE,
    }
}

// "A response may be modified in side, price and units, taking the new arrival number and keeping its account".
fn modified_entry(t: Modify, number: u64, e: Entry) -> Entry
    ensures { entry_of result ≡ modified_entry (change_of t) number (entry_of e) }
{
    Entry {
        arrival: number,
        id: e.id,
        participant: e.participant,
        price: price::biased(t.price),
        units: t.units,
        buy: state::word_of(t.side == Leg::B),
        customer: e.customer,
        stage: Stage::RESPONSE,
    }
}

// The same entry in the queue.
fn in_queue(e: Entry) -> Entry
    ensures { entry_of result ≡ with_stage queued (entry_of e) }
{
    Entry {
        stage: Stage::QUEUED,
        ..e
    }
}

// ---- orders

// The auction of an order of that side: "begins one, ending at its time plus the interval"; the derived contra price is kept where there is one.
fn begin(longs: &mut Longs, words: &mut Words, buy: bool)
    ensures { (o : Open) → o.buy ≡ buy → Becomes longs words (λ s. with_auction s (beginning s o s.clock.time)) }
{
    let d = quotes::derived(words, buy);
    let time = longs[Clock::TIME].min(Clock::MOST_TIME);
    let interval = words[Settings::INTERVAL];
    longs[Auction::DEADLINE] = time + u64::from(interval);
    longs[Auction::START_PRICES] = d.price;
    longs[Auction::START_COUNT] = u64::from(state::word_of(0 < d.units));
    words[Auction::PENDING] = 1;
    words[Auction::BUY] = state::word_of(buy);
    words[Auction::START_UNITS] = d.units;
}

// An order with no auction pending.
fn order_outside(longs: &mut Longs, words: &mut Words, wish: bool, e: Entry) -> Act
    ensures { TakesIn longs words result (λ s. outside s wish (entry_of e)) }
{
    let buy = state::is_set(e.buy);
    if asks(words, wish, buy, e.price, e.units) {
        book::append(longs, words, in_queue(e));
        begin(longs, words, buy);
        return Act::Begins;
    }
    book::append(longs, words, e);
    Act::GoesOn
}

// An order during an auction.
fn order_during(longs: &mut Longs, words: &mut Words, wish: bool, e: Entry) -> Act
    ensures { (p : Pending) → (state_of longs.old words.old).auction ≡ pending p → TakesIn longs words result (λ s. during s p wish (entry_of e)) }
{
    let buy = state::is_set(e.buy);
    if ends_by_order(words, buy, e.price) {
        book::append(longs, words, e);
        return Act::Ends(Cause::Order);
    }
    if is_joining(words, wish, buy, e.price, e.units) {
        book::append(longs, words, in_queue(e));
        return Act::Joins;
    }
    book::append(longs, words, e);
    Act::GoesOn
}

// "A new order is held"; the three sentences on orders during an auction.
fn order_in(longs: &mut Longs, words: &mut Words, o: Order) -> Act
    ensures { TakesIn longs words result (λ s. take_in s (order (order_terms o) o.wish)) }
{
    let e = new_order(o, number_of(longs));
    if state::is_pending(words) {
        return order_during(longs, words, o.wish, e);
    }
    order_outside(longs, words, o.wish, e)
}

// ---- the other kinds

// A local quote, and the test of the early end after it.
fn local_in(longs: &mut Longs, words: &mut Words, q: Local) -> Act
    ensures { TakesIn longs words result (λ s. take_in s (local (local_of q))) }
{
    quotes::put_local(words, q);
    if ends_by_legs(words) {
        return Act::Ends(Cause::Legs);
    }
    Act::GoesOn
}

// A national quote.
fn national_in(longs: &mut Longs, words: &mut Words, q: National) -> Act
    ensures { TakesIn longs words result (λ s. take_in s (national (national_of q))) }
{
    quotes::put_national(words, q);
    Act::GoesOn
}

// A response.
fn response_in(longs: &mut Longs, words: &mut Words, t: Response) -> Act
    ensures { TakesIn longs words result (λ s. take_in s (response (response_terms t))) }
{
    let e = new_response(t, number_of(longs));
    book::append(longs, words, e);
    Act::GoesOn
}

// A modification of a response.
fn modify_in(longs: &mut Longs, words: &mut Words, t: Modify) -> Act
    ensures { TakesIn longs words result (λ s. take_in s (modify (change_of t))) }
{
    let number = number_of(longs);
    if let Some(e) = book::take_out(longs, words, t.id) {
        book::append(longs, words, modified_entry(t, number, e));
    }
    Act::GoesOn
}

// M-105: "If none is left, the auction ends".
fn after_cancel(words: &Words) -> Act
    ensures { Tells words (λ s. act_of result ≡ after_cancel s) }
{
    if state::is_pending(words) & !book::any_queued(words) {
        return Act::Ends(Cause::Cancel);
    }
    Act::GoesOn
}

// A cancel, and what it does to the auction.
fn cancel_in(longs: &mut Longs, words: &mut Words, t: Cancel) -> Act
    ensures { TakesIn longs words result (λ s. take_in s (cancel t.id t.participant)) }
{
    book::remove(longs, words, t.id);
    after_cancel(words)
}

// M-105: a reduce to "the new open units".
fn reduce_in(longs: &mut Longs, words: &mut Words, t: Reduce) -> Act
    ensures { TakesIn longs words result (λ s. take_in s (reduce t.id t.participant t.units)) }
{
    book::reduce(words, t.id, t.units);
    Act::GoesOn
}

// "A clock message at or after the deadline ends it"; the state has taken its time.
fn clock_in(longs: &mut Longs, words: &mut Words) -> Act
    ensures { TakesIn longs words result (λ s. take_in s clock) }
{
    let time = longs[Clock::TIME].min(Clock::MOST_TIME);
    if refusals::is_reached(longs, words, time) {
        return Act::Ends(Cause::Time);
    }
    Act::GoesOn
}

// A message taken in; the state has taken its number and time.
pub fn take_in(longs: &mut Longs, words: &mut Words, b: Body) -> Act
    ensures { TakesIn longs words result (λ s. take_in s (body_of b)) }
{
    match b {
        Body::Local(q) => local_in(longs, words, q),
        Body::National(q) => national_in(longs, words, q),
        Body::Order(o) => order_in(longs, words, o),
        Body::Response(t) => response_in(longs, words, t),
        Body::Modify(t) => modify_in(longs, words, t),
        Body::Cancel(t) => cancel_in(longs, words, t),
        Body::Clock => clock_in(longs, words),
        Body::Reduce(t) => reduce_in(longs, words, t),
    }
}

// ---- the legs, message after message

// "the smallest number of units it has shown since the start", after one more look at the legs; "If the price moved away and came back, that number is 0".
fn least_shown(kept: u32, price: u64, d: Derived) -> u32
    ensures { result ≡ min kept (units_at price (derived_of d ∷ [])) }
{
    if d.price != price {
        return 0;
    }
    kept.min(d.units)
}

// One more look at the legs while an auction is pending; 0 units stay 0.
fn look(longs: &mut Longs, words: &mut Words)
    ensures { Becomes longs words (λ s. with_auction s (looked s.auction (contra_prices s))) }
{
    let kept = words[Auction::START_UNITS];
    if state::is_pending(words) & (0 < kept) {
        let d = quotes::derived(words, state::is_set(words[Auction::BUY]));
        words[Auction::START_UNITS] = least_shown(kept, longs[Auction::START_PRICES], d);
    }
}

// M-103: what is kept of the legs, after a message taken in; after any but a local quote they show what they showed.
pub fn watch(longs: &mut Longs, words: &mut Words, b: Body)
    ensures { Becomes longs words (watched (body_of b)) }
{
    if let Body::Local(_) = b {
        look(longs, words);
    }
}
