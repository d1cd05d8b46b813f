ghost use Rattle.account_statements.specs.Laws.{DecisionsByAccount, OwnBalances, ResultsByContent, StatementsByAccount};

/// Where an account has the same opening and the same jobs in two batches, their numbers aside, its statements are the same.
pub fn statements_by_account()
    ensures { StatementsByAccount }
{}

/// What a job gives doesn't depend on its number, nor on its account's.
pub fn results_by_content()
    ensures { ResultsByContent }
{}

/// The balance of an account behind some jobs is the one behind its own jobs among them.
pub fn own_balances()
    ensures { OwnBalances }
{}

/// What becomes of a job at its place in a batch is what becomes of it behind its account's jobs alone.
pub fn decisions_by_account()
    ensures { DecisionsByAccount }
{}
