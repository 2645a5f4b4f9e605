/// Numbers that follow from a first one.
#[derive(Drop)]
pub struct Draws {
    state: u64,
}

impl Draws {
    /// Those that follow from this number.
    pub fn new(seed: u64) -> Draws {
        Draws { state: seed }
    }

    /// The next number below another one; 0 where that is 0.
    pub fn below(&mut self, most: usize) -> usize {
        self.state = self
            .state
            .wrapping_mul(6_364_136_223_846_793_005)
            .wrapping_add(1_442_695_040_888_963_407);
        if most == 0 {
            return 0;
        }
        (self.state >> 33) as usize % most
    }
    /// The size of a batch, from 1 to 16, a small one more often.
    pub fn size(&mut self) -> u16 {
        let wide = self.below(16).saturating_add(1);
        u16::try_from(self.below(wide))
            .unwrap_or(0)
            .saturating_add(1)
    }
}
