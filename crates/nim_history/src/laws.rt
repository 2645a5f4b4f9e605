ghost use Rattle.nim_history.specs.GoesOn.{HistoryGoesOn, TruthGoesOn};
ghost use Rattle.nim_history.specs.InTurn.{InTurn};
ghost use Rattle.nim_history.specs.Truth.{HistoriesAreTrue};

/// Whatever the order in which a worker completed its commands, as far as their waits allowed it: for every job for
/// which
/// its orders may be given, are covered, and its frames are true, all that it gave is true, and each command that may
/// be
/// completed next finds in its slots what the list of commands says.
pub fn histories_are_true()
    ensures { HistoriesAreTrue }
{}

/// What a history comes to as it goes on, and that what a worker was handed stays true of a job with each order that
/// may
/// be given, each frame that is true, and whatever the worker completes.
pub fn history_goes_on()
    ensures history { HistoryGoesOn }
    ensures truth { TruthGoesOn }
{}

/// Commands that are out at once: that they may be completed in turn stays true when more orders and frames come, and
/// when one more is begun that might be completed now.
pub fn commands_in_turn()
    ensures { InTurn }
{}
