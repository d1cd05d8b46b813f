ghost use Rattle.account_book.specs.Laws.{ChargeWithin, TableByPlaces};

/// A job that kept its limits is charged at least its cards and at most its reserve.
pub fn charge_within()
    ensures { ChargeWithin }
{}

/// A table of balances that is kept from claim to claim holds the balance of each account at each place.
pub fn table_by_places()
    ensures { TableByPlaces }
{}
