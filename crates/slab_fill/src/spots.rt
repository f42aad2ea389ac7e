ghost use Rattle.std.specs.Prelude.{◌≡◌, ◌+◌, ◌*◌, ◌^◌, ◌<◌};
ghost use Rattle.slab_fill.specs.Spots.{spot};

/// Where element `j` stands of those that stand `step` bytes apart from `at` on.
#[tactic(auto, unfolding(crate::specs::Spots::spot))]
pub fn spot_of(at: usize, step: usize, j: usize) -> usize
    requires { spot at step j < 2 ^ 64 }
    ensures { result ≡ spot at step j }
{
    at + j * step
}
