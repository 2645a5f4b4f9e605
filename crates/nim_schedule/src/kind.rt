ghost use Rattle.std.specs.Prelude.{◌≡◌};
ghost use Rattle.nim_schedule.specs.Lines as spec;

/// What a line says, by its first word.
#[derive(Clone, Copy)]
pub enum LineKind {
    Order,
    Report,
    Data,
    Begin,
    Finish,
    Lose,
    Propose,
    Auto,
}

impl LineKind {
    /// What a first word says that its line is.
    #[tactic(auto, unfolding(crate::specs::Lines::line_kind))]
    pub fn of(word: &[u8]) -> Option<LineKind>
        ensures { result ≡ spec.line_kind word.now }
    {
        Some(match word {
            b"order" => LineKind::Order,
            b"report" => LineKind::Report,
            b"data" => LineKind::Data,
            b"begin" => LineKind::Begin,
            b"finish" => LineKind::Finish,
            b"lose" => LineKind::Lose,
            b"propose" => LineKind::Propose,
            b"auto" => LineKind::Auto,
            _ => return None,
        })
    }

    /// Such lines are read. No worker is lost and no edit is proposed yet.
    pub fn is_taken_yet(self) -> bool
        ensures { result ≡ spec.is_taken_yet self }
    {
        !matches!(self, LineKind::Lose | LineKind::Propose)
    }
}
