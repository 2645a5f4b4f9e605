ghost use Rattle.nim_course.specs.Law.{ControllersLead};
ghost use Rattle.nim_course.specs.Printed.{PrintsWhatIsTold};
ghost use Rattle.nim_course.specs.PutLists.{ControllersPut};

/// A controller that was just made leads its job, and it still does after each turn, with the orders of that turn, and
/// after each report that is true of the job. So the orders of each live worker are legal, what they ask for is covered
/// after each of them, and the lists of all live workers are paired.
pub fn controllers_lead()
    ensures { ControllersLead }
{}

/// Whatever is reported to a controller, true or not, each part that it prints is the text of a value that was reported
/// to it.
pub fn prints_what_is_told()
    ensures { PrintsWhatIsTold }
{}

/// All orders of a controller are those of its moves: each move gives what it should, a patch is installed only where
/// its use is no hit, and the summary counts what was given.
pub fn controllers_put()
    ensures { ControllersPut }
{}
