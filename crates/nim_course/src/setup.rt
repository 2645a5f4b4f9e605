use nim_place::Placement;

/// How a job is run: on so many workers, 1 to 16, each object placed by this rule.
#[derive(Clone, Copy, Debug, PartialEq, Eq)]
pub struct Setup {
    pub workers: u16,
    pub place: Placement,
}
