ghost use Rattle.std.specs.Prelude.{◌≡◌};
ghost use Rattle.nim_command.specs.Ranks.{rank_of, rank_stage};

use nim_base::Position;
use nim_command::{Command, Kind, Rank};

/// The copies of a patch are numbered from here.
const PATCH_NUMBERS: u32 = 131_072;

/// The place of a command in the order in which waits go. The position is the base of the command's instance; of a
/// Create, Load or Fetch it is the number of tasks before it in program order. Its meaning is `rank_of` of
/// `specs/Ranks.antt` of the crate `nim_command`.
pub fn rank(position: Position, command: &Command) -> Rank
    ensures { result ≡ rank_of position command.now }
{
    Rank {
        position,
        stage: stage(command),
        number: command.id,
        later: !matches!(command.kind, Kind::Send { .. }),
    }
}

fn stage(command: &Command) -> u8
    ensures { result ≡ rank_stage command.now.id command.now.kind }
{
    match command.kind {
        Kind::Create { .. } | Kind::Load { .. } => 0,
        Kind::Fetch { .. } => 1,
        Kind::Send { .. } | Kind::Receive { .. } if command.id >= PATCH_NUMBERS => 2,
        _ => 3,
    }
}
