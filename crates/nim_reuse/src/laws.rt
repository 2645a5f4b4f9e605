ghost use Rattle.nim_reuse.specs.Cost.{LaterInstancesAreShort};
ghost use Rattle.nim_reuse.specs.GoesOn.{DecisionsStand, InstancesGoOn};

/// Behind orders so far, the orders of a reused instance keep them legal, covered and paired; they run each task of the
/// block once, at its home, and the map behind them stands for all that was asked for. So do the decisions.
pub fn instances_go_on()
    ensures { InstancesGoOn }
{}

/// Decisions stand while blocks are recorded, and while Singles are given.
pub fn decisions_stand()
    ensures { DecisionsStand }
{}

/// From the third instance of a block on, a worker gets at most two orders for it, a RunPatch and an Instantiate, where
/// no new patch is made; how many bytes they take doesn't depend on the number of tasks.
pub fn later_instances_are_short()
    ensures { LaterInstancesAreShort }
{}
