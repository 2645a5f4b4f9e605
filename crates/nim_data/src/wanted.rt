ghost use Rattle.std.specs.Prelude.{◌≡◌, option_map, None, Some};
ghost use Rattle.nim_data.specs.Wanted as spec;

use crate::lines::Header;
use nim_base::{Seq, Shape};

/// A header isn't that of the next wanted part, or a part is missing at the end.
pub const NOT_NEXT: u8 = 73;

/// A header says more rows than its variable has.
const TOO_MANY_ROWS: u8 = 74;

/// A header says another width than its variable has.
const OTHER_WIDTH: u8 = 75;

/// A part that is to be loaded: the variable's name, the part's number and the variable's shape.
#[derive(Debug, Drop)]
pub struct Wanted {
    pub name: Seq<u8>,
    pub part: u32,
    pub shape: Shape,
}

/// The rule that refuses a header in the place of a wanted part; there may be none left.
pub fn rule_at(wanted: Option<&Wanted>, header: &Header) -> Option<u8>
    ensures { result ≡ spec.rule_at (option_map (λ w. w.now) wanted.entry) header.now }
{
    match wanted {
        None => Some(NOT_NEXT),
        Some(wanted) => rule_of(wanted, header),
    }
}

#[tactic(auto, unfolding(crate::specs::Wanted::header_rule))]
fn rule_of(wanted: &Wanted, header: &Header) -> Option<u8>
    ensures { result ≡ spec.header_rule wanted.now header.now }
{
    if wanted.name.as_slice() != header.name.as_slice() || wanted.part != header.part {
        Some(NOT_NEXT)
    } else if header.rows > wanted.shape.rows {
        Some(TOO_MANY_ROWS)
    } else if header.width != wanted.shape.width {
        Some(OTHER_WIDTH)
    } else {
        None
    }
}
