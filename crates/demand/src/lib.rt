// Demand 3, M-101 to M-103 and M-106, of the engine's own records and state over the whole list of messages: of whatever keeps the contracts of `open`, `step`, `apply` and `average_of`.
#![tactic(auto)]

ghost use Rattle.demand.specs.Engine.{Demand3, RecordsByArrival, AveragesAreExact, LegsKept, LegPricesAreLeast, ListIsFixed};

// At every order's turn to execute the records are the best way to fill it.
pub fn demand_3()
    ensures { Demand3 }
{}

// M-101: the records of a turn stand by price, best first, at one price by rank, in one rank by the contra's arrival number, which is that of the last accepted message that gave or modified it.
pub fn records_by_arrival()
    ensures { RecordsByArrival }
{}

// M-102: for every order quotient × units + remainder is the sum of price × units over the records that name it, and the remainder is below the units; each executed order has one average and no other has any, by first record; and asked of any order, `average_of` tells the same, or none.
pub fn averages_are_exact()
    ensures { AveragesAreExact }
{}

// M-103: what is kept of the legs while an auction is pending is the derived contra price of its start, if there was one, with the least units that it has shown: after the message that began the auction and after each accepted one since, 0 where the price was another.
pub fn legs_kept()
    ensures { LegsKept }
{}

// M-106: the leg prices of a record against an entry are inside the legs' bids and asks as they stood just before it, ends included, and their net is its price; no such prices are before them, by leg 0, then leg 1, and so on; none are said exactly if a leg lacked a side, an ask was more than 50 above its bid, or no such prices exist. A record against the legs shows the prices of the sides used.
pub fn leg_prices_are_least()
    ensures { LegPricesAreLeast }
{}

// M-101: no other records keep both promises; and two engines give the same records, leg prices, outcomes, states and bytes of tapeprint. The first rests on demand 3 and the sequence alone, the second on the contracts: they equate state, outcome, records and leg prices with the rules', and what tapeprint writes with the text of those.
pub fn list_is_fixed()
    ensures { ListIsFixed }
{}
