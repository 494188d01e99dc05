// A message is applied over lent slices, and its fill records are written into a lent list of structs.
#![tactic(auto)]

ghost use Rattle.types.specs.View.{message_of};
ghost use Rattle.fills.specs.Fills.{IsApplied};

use types::{Fill, Message, Outcome};

// A message is applied: its records stand at the start of both lists, and the places behind them are as they were.
pub fn apply(
    longs: &mut [u64],
    words: &mut [u32],
    list: &mut [u64],
    fills: &mut [Fill],
    m: Message,
) -> Outcome
    ensures { IsApplied longs.old words.old list.old fills.old (message_of m) result longs.new words.new list.new fills.new }
{
    let a = engine::step(longs, words, list, m, fills.len());
    for i in 0..a.count {
        fills[i] = records::fill_at(list, i);
    }
    a.outcome
}
