ghost use Rattle.nim_template.specs.StaysBefore.{MapsStayBefore};

/// A map of versions stays before the position that its commands reach: a new one, one behind commands that put no
/// version past a position, and one behind a task. So an instance may begin there, as far as its base is asked for.
pub fn maps_stay_before()
    ensures { MapsStayBefore }
{}
