//! Numbers that are drawn from a seed.
ghost use Rattle.std.specs.Prelude.{◌≡◌, ◌<◌, ◌/◌, ◌%◌};
ghost use Rattle.soak_texts.specs.Draws.{next_state};

/// A seed and what was drawn from it so far, as its state.
#[derive(Drop)]
pub(crate) struct Draws {
    state: u32,
}

impl Draws {
    pub(crate) fn from_seed(seed: u32) -> Draws
        ensures { result.state ≡ seed }
    {
        Draws { state: seed }
    }

    // The next draw: a number below k.
    #[tactic(auto, using(crate::proofs::DrawLemmas::wrapped), unfolding(crate::specs::Draws::next_state))]
    pub(crate) fn below(&mut self, k: u32) -> u32
        requires { 0 < k }
        ensures state { self.new.state ≡ next_state self.old.state }
        ensures answer { result ≡ next_state self.old.state / 65536 % k }
    {
        self.state = self
            .state
            .wrapping_mul(1_664_525)
            .wrapping_add(1_013_904_223);
        self.state / 65_536 % k
    }
}
