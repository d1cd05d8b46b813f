ghost use Rattle.batch_core.specs.Laws.{EventsKeep, ReachableStatesKeep, LegalListsKeepOrder, MoneyAddsUp, StagesAsListed, JobsHaveArrived, CompleteListsPrintInOrder};

/// An event that is allowed keeps what every reachable state keeps: the decided jobs are the first ones, and so are the
/// printed ones; no account pays more than it has; and, whatever the outstanding jobs will cost, each decision is that of
/// the job's place, and the balance at the place of the next undecided job is between the bounds.
pub fn events_keep()
    ensures { EventsKeep }
{}

/// So every state that a legal list of events reaches keeps it.
pub fn reachable_states_keep()
    ensures { ReachableStatesKeep }
{}

/// A legal list of events accepts and refuses each job by its place, whatever the outstanding jobs will cost.
pub fn legal_lists_keep_order()
    ensures { LegalListsKeepOrder }
{}

/// Of each account the opening is the balance and what was settled; the balance is the low bound and what is reserved,
/// and the high bound and the cards of the outstanding jobs.
pub fn money_adds_up()
    ensures { MoneyAddsUp }
{}

/// A job is accepted exactly where the list has its Accept, refused where it has its Refuse, and was charged what its End
/// carries.
pub fn stages_as_listed()
    ensures { StagesAsListed }
{}

/// The jobs are those that have arrived, in the order of arrival.
pub fn jobs_have_arrived()
    ensures { JobsHaveArrived }
{}

/// A legal list of events after which every job that has arrived is printed prints jobs 1 to n, each once and in order.
pub fn complete_lists_print_in_order()
    ensures { CompleteListsPrintInOrder }
{}
