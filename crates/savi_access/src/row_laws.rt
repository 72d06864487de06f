//! The laws on rows. Each function does nothing: its contract is the law.

ghost use Rattle.savi_access.specs.RowLaws.{ChangesOneAddress, KeepsTables};

/// Rows are a map: once an address has another state, each other address has the state that it had.
pub fn one_address_changes()
    ensures { ChangesOneAddress }
{}

/// Rows that change stay in rising order of address, none without a state.
pub fn tables_stay_tables()
    ensures { KeepsTables }
{}
