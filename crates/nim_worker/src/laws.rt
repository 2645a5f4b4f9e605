ghost use Rattle.nim_worker.specs.Lent.{LentBatchesStand};

/// Whichever works of a batch that is out are performed, in whatever order: the batch is out still, and completes what
/// it did. So a caller may lend the works, have any of them performed, and then finish the batch.
pub fn lent_batches_stand()
    ensures { LentBatchesStand }
{}
