//! The laws on pairs that are armed. Each function does nothing: its contract is the law.

ghost use Rattle.timer_wheel.specs.Laws.{ChangesOneAddress, FirstIsLeast, PairsAreOneList};

/// What is due first is the least pair, by moment and then by address.
pub fn first_is_least()
    ensures { FirstIsLeast }
{}

/// Arming and canceling change what is due for the one address.
pub fn one_address_changes()
    ensures { ChangesOneAddress }
{}

/// Pairs in rising order of address are told by what is due for each address.
pub fn pairs_are_one_list()
    ensures { PairsAreOneList }
{}
