ghost use Rattle.nim_place.specs.Orders.{ResetsBegin, SinglesExtend};
ghost use Rattle.nim_place.specs.Starts.{MapStarts};

/// Resets to all live workers begin an epoch, in which nothing is asked for and no key is there; and Singles of live
/// workers' commands extend orders so far: they ask for these too, and stay legal, covered and paired where the
/// commands are legal, have the before sets of the rule, and send and receive nothing.
pub fn orders_extend()
    ensures resets { ResetsBegin }
    ensures singles { SinglesExtend }
{}

/// Once each object was created or loaded at some worker, one after another, in the version that the task at a position
/// of a job reads, the map is at this position.
pub fn map_starts()
    ensures { MapStarts }
{}
