ghost use Rattle.std.specs.Prelude.{◌≡◌, ◌<◌};
ghost use Rattle.position_maker.specs.Draws.{next, place};

/// The number that follows.
#[tactic(auto, unfolding(crate::specs::Draws::next))]
pub(crate) fn next(x: u64) -> u64
    ensures { result ≡ next x }
{
    x.wrapping_mul(6_364_136_223_846_793_005)
        .wrapping_add(1_442_695_040_888_963_407)
}

/// The place among so many that the number draws.
#[tactic(auto, unfolding(crate::specs::Draws::place))]
pub(crate) fn place(x: u64, among: usize) -> usize
    requires { 0 < among }
    ensures answer { result ≡ place x among }
    ensures within { result < among }
{
    ((x >> 33) % among as u64) as usize
}
