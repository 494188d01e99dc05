// Document 01, "Order and auction life": one message, from its refusal or intake to its answer. The state is changed in place, and the fill records are written into the lent list.
#![tactic(auto)]

ghost use Rattle.std.specs.Prelude.{◌≡◌, ◌*◌, ◌≤◌, length, get_or};
ghost use Rattle.rules.specs.Strategy.{most_number, most_time};
ghost use Rattle.rules.specs.State.{taken};
ghost use Rattle.rules.specs.Refusals.{least_room};
ghost use Rattle.rules.specs.Outcome.{Refused};
ghost use Rattle.rules.specs.Step.{follow, plain, deadline_of, outcome_of as answer_of};
ghost use Rattle.types.specs.Refusals.{number_of};
ghost use Rattle.types.specs.View.{outcome_of, body_of, message_of};
ghost use Rattle.state.specs.Layout as L;
ghost use Rattle.state.specs.Lent.{Tells, TellsBoth, LongsBecome};
ghost use Rattle.records.specs.Records.{width};
ghost use Rattle.intake.specs.Acts.{act_of};
ghost use Rattle.execution.specs.Plays.{Plays};
ghost use Rattle.engine.specs.Steps.{Accepts, Steps};

use intake::Act;
use records::Record;
use state::{Auction, Clock, Longs, Words};
use types::{Body, Message, Outcome, Refusal};

mod route;

// How many records a message has, and its outcome.
#[derive(Clone, Copy)]
pub struct Answer {
    pub count: usize,
    pub outcome: Outcome,
}

// ---- a message taken in, and what it sets off

// "Each accepted message takes the next arrival number", and its time is the last accepted one.
fn take(longs: &mut Longs, time: u64)
    requires { (get_or longs.old L.next 0 ≤ most_number) × (time ≤ most_time) }
    ensures { LongsBecome longs (λ s. taken s time) }
{
    longs[Clock::NEXT] += 1;
    longs[Clock::TIME] = time;
}

// What an accepted message sets off.
fn follow(longs: &mut Longs, words: &mut Words, list: &mut [u64], act: Act) -> usize
    ensures { Plays longs words list 0 result (λ s. follow s (act_of act)) }
{
    match act {
        Act::GoesOn => route::quiet(longs, words, list, 0),
        Act::Begins | Act::Joins => 0,
        Act::Ends(_) => route::ending(longs, words, list, 0),
    }
}

// ---- its outcome

// "Begun (deadline)".
fn deadline(longs: &Longs, words: &Words) -> u64
    ensures { TellsBoth longs.now words.now (λ s. result ≡ deadline_of s.auction) }
{
    if state::is_set(words[Auction::PENDING]) {
        return longs[Auction::DEADLINE];
    }
    0
}

// "Placed answers an order that neither begins, joins nor ends an auction; Noted any other accepted message that ends none".
fn plain(words: &Words, b: Body, count: u32) -> Outcome
    ensures { Tells words (λ s. outcome_of result ≡ plain (body_of b) s count) }
{
    match b {
        Body::Local(q) => Outcome::Noted(count),
        Body::National(q) => Outcome::Noted(count),
        Body::Order(o) => Outcome::Placed(book::units_of(words, o.id), count),
        Body::Response(t) => Outcome::Noted(count),
        Body::Modify(t) => Outcome::Noted(count),
        Body::Cancel(t) => Outcome::Noted(count),
        Body::Clock => Outcome::Noted(count),
        Body::Reduce(t) => Outcome::Noted(count),
    }
}

// The outcome of an accepted message, by what it did, the state after it and its fill count.
fn outcome_of(longs: &Longs, words: &Words, b: Body, act: Act, count: usize) -> Outcome
    requires { count ≤ least_room }
    ensures { TellsBoth longs.now words.now (λ s. outcome_of result ≡ answer_of (body_of b) (act_of act) s count) }
{
    let n = count as u32;
    match act {
        Act::GoesOn => plain(words, b, n),
        Act::Begins => Outcome::Begun(deadline(longs, words)),
        Act::Joins => Outcome::Joined(book::queue_units(words)),
        Act::Ends(cause) => Outcome::Ended(cause, n),
    }
}

// ---- one message

// A message that is not refused.
fn accepted(longs: &mut Longs, words: &mut Words, list: &mut [u64], m: Message) -> Answer
    requires { (least_room * width ≤ length list.old) × (get_or longs.old L.next 0 ≤ most_number) × (m.time ≤ most_time) }
    ensures { Accepts longs words list (message_of m) result }
{
    let body = m.body;
    take(longs, m.time);
    let act = intake::take_in(longs, words, body);
    intake::watch(longs, words, body);
    let count = follow(longs, words, list, act);
    let outcome = outcome_of(longs, words, body, act, count);
    Answer { count, outcome }
}

// A message that is turned back, by its row.
fn refused(row: Refusal) -> Answer
    ensures { (result.count ≡ 0) × (outcome_of result.outcome ≡ Refused (number_of row)) }
{
    Answer {
        count: 0,
        outcome: Outcome::Refused(row),
    }
}

// One message for a state: refused, or accepted.
fn answered(
    longs: &mut Longs,
    words: &mut Words,
    list: &mut [u64],
    m: Message,
    room: usize,
) -> Answer
    ensures { Steps longs words list (message_of m) room result }
{
    let places = room.min(list.len() / Record::NUMBERS);
    match refusals::refusal(longs, words, m, places) {
        Ok(()) => accepted(longs, words, list, m),
        Err(row) => refused(row),
    }
}

// One message with a fill list of so many places; slices that are no state's count as a list without a place.
pub fn step(
    longs: &mut [u64],
    words: &mut [u32],
    list: &mut [u64],
    m: Message,
    room: usize,
) -> Answer
    ensures { Steps longs words list (message_of m) room result }
{
    let Some(longs) = longs.as_mut_array() else {
        return refused(Refusal::ShortList);
    };
    let Some(words) = words.as_mut_array() else {
        return refused(Refusal::ShortList);
    };
    answered(longs, words, list, m, room)
}
