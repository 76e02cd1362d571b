//! Laws of orders.
ghost use Rattle.rev_patched.specs.Histories.{UserComesFirst};
ghost use Rattle.rev_patched.specs.Laws.{BackwardsIsFaulty, OrdersWait, OthersStay};

/// An edge waits for the maker of each path that is ordered before it.
pub fn orders_wait()
    ensures { OrdersWait }
{}

/// Each edge still waits for what it waited for. An edge that no order touches waits for nothing else.
pub fn others_stay()
    ensures { OthersStay }
{}

/// An order makes a cycle where its path is made by the edge itself, or by an edge that waits for it.
pub fn backwards_is_faulty()
    ensures { BackwardsIsFaulty }
{}

/// In no history of a provoked manifest, from an opening without marks, does the maker start before the user is
/// settled.
pub fn user_comes_first()
    ensures { UserComesFirst }
{}
