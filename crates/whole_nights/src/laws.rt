// A night that is cut, run in parts, and joined again.
ghost use Rattle.whole_nights.specs.Joining.{NightsAreJoined, PlansAreSaid};
ghost use Rattle.whole_nights.specs.Parts.{ChainsGoOn, ChainsOpen, OpeningsAreFiled, PartsAreBatches, PartsAreFiled};
ghost use Rattle.whole_nights.specs.Plans.{PlansAreOne};
ghost use Rattle.whole_nights.specs.Whole.{NightsAreWhole};

use night_forms::parts_are_apart;

/// The plan that is filed when a night is cut is the one by which it is joined.
pub fn plans_are_one()
    ensures { PlansAreOne }
{}

/// What the plan says of a night's accounts and jobs has room in it.
pub fn plans_are_said()
    ensures { PlansAreSaid }
{}

/// A night's plan and the listings of its parts are joined to its listing, and to the accounts of the next night.
pub fn nights_are_joined()
    ensures { NightsAreJoined }
{
    parts_are_apart();
}

/// The cards of a part, with its chain's accounts as the earlier jobs leave them, are the batch of the part.
pub fn parts_are_batches()
    ensures { PartsAreBatches }
{}

/// A chain's accounts are first those of its accounts file.
pub fn chains_open()
    ensures { ChainsOpen }
{}

/// Then they are those that each part leaves.
pub fn chains_go_on()
    ensures { ChainsGoOn }
{}

/// The cards of each part that has any are filed.
pub fn parts_are_filed()
    ensures { PartsAreFiled }
{}

/// Of each chain a text is filed that states its accounts.
pub fn openings_are_filed()
    ensures { OpeningsAreFiled }
{}

/// A night that is cut, run in parts and joined again gives its listing, and the accounts of the next night.
pub fn nights_are_whole()
    ensures { NightsAreWhole }
{
    parts_are_apart();
}
