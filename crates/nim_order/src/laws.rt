ghost use Rattle.nim_order.specs.Laws.{AnyOrder, AnyStep, AtEnds, NeverStuck, VersionsAreLocal};
ghost use Rattle.nim_order.specs.Longer.{AnyLonger, FrontIsCovered, FrontStays};
ghost use Rattle.nim_order.specs.Orders.{OrdersCover};
ghost use Rattle.nim_order.specs.Rule.{MoreNamesCover, RuleCovers};

/// Groups whose before sets are those of the rule make covered commands, whatever the groups. So do groups whose before
/// sets have more than the rule's numbers.
pub fn before_sets_cover()
    ensures rule { RuleCovers }
    ensures more { MoreNamesCover }
{}

/// What orders come to is covered where a Single's commands and a template's entries have the before sets of the rule:
/// all other before sets are made by it, those of edited halves and of patches.
pub fn orders_cover()
    ensures { OrdersCover }
{}

/// The commands of a covered list may run in any order that waits allow: each finds in its slots what the commands
/// before it in the list leave, and when all have run the slots hold what the list leaves. `X` is what a slot holds.
pub fn any_order<X>()
    ensures { AnyOrder X }
{}

/// One step of such an order, for one that keeps what the slots hold and which commands are complete.
pub fn any_step<X>()
    ensures { AnyStep X }
{}

/// What the slots hold where nothing is complete, and where everything is.
pub fn held_at_ends<X>()
    ensures { AtEnds X }
{}

/// Where a command isn't complete, one is released.
pub fn never_stuck()
    ensures { NeverStuck }
{}

/// What stands of a list of commands stands when more commands come behind.
pub fn longer_list_stands<X>()
    ensures { AnyLonger X }
{}

/// When more groups come behind, the commands of those before them and their waits stay, and are covered where all are.
pub fn front_stays()
    ensures commands { FrontStays }
    ensures covered { FrontIsCovered }
{}

/// What slots hold in the order of the list, as objects and versions, is of the kind that these laws speak of.
pub fn versions_are_local()
    ensures { VersionsAreLocal }
{}
