ghost use Rattle.nim_lockstep.specs.Few.{EventsAreFew};
ghost use Rattle.nim_lockstep.specs.Law.{ClustersStayInStep, EventsGoOn};

/// Whatever events a cluster is given, in whatever order: the orders to each worker may be given for the job and what
/// they ask for is covered, all lists are paired, what waits on links is true, each task that is run reads the versions
/// that program order names and is run once, and a job that ends has printed what its tasks print, run one by one in
/// program order.
pub fn clusters_stay_in_step()
    ensures { ClustersStayInStep }
{}

/// A cluster that was made, was given one more event, or has followed a schedule, is one that events lead to; its job
/// and how it is run stay.
pub fn events_go_on()
    ensures { EventsGoOn }
{}

/// However events come, no more of them are done than the orders, the commands that they ask for and the workers come
/// to: each uses up a message, a released command or a batch.
pub fn events_are_few()
    ensures { EventsAreFew }
{}
