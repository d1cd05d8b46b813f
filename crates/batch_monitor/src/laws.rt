ghost use Rattle.batch_monitor.specs.Closing.{ClosedAreAccounts};

/// Where accounts are such as a text may state, so are they with their closing balances.
pub fn closed_are_accounts()
    ensures { ClosedAreAccounts }
{}
