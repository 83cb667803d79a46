//! What holds of the positions of each desk.

ghost use Rattle.muni_position.specs.Laws.{FewTradesHaveRoom, PositionsAreThoseHeld};

/// Positions are in the order of their CUSIPs, each once. A CUSIP is among them, with its position,
/// exactly if a trade of it is live.
pub fn positions_are_those_held()
    // promise 6: which CUSIPs have a position
    ensures { PositionsAreThoseHeld }
{}

/// A desk that has at most 100,000,000 trades after a put has room for it.
pub fn few_trades_have_room()
    // promise 6: a desk with at most 100,000,000 trades after a put has room for it
    ensures { FewTradesHaveRoom }
{}
