//! Numbers drawn from a seed.

ghost use Rattle.std.specs.Prelude.{◌≡◌, ◌<◌};
ghost use Rattle.cpl_gen.specs.Draws.{drawn, next_state, numbers_of};

/// What a state is multiplied by.
const FACTOR: u128 = 6_364_136_223_846_793_005;

/// What is added to it.
const SUMMAND: u128 = 1_442_695_040_888_963_407;

/// How many states there are.
const STATES: u128 = 1 << 64;

/// The numbers of a configuration: columns and rows of the grid, the hundredths by which a flux spreads in a step,
/// and the seconds of a run.
#[derive(Drop)]
pub(crate) struct Numbers {
    pub(crate) columns: u64,
    pub(crate) rows: u64,
    pub(crate) hundredths: u64,
    pub(crate) seconds: u64,
}

/// The numbers that a seed gives.
pub(crate) fn numbers_of(seed: u64) -> Numbers
    ensures { result ≡ numbers_of seed }
{
    let first = next_state(seed);
    let second = next_state(first);
    let third = next_state(second);
    let fourth = next_state(third);
    Numbers {
        columns: 64 + drawn(65, first),
        rows: 32 + drawn(33, second),
        hundredths: 1 + drawn(9, fourth),
        seconds: 3600 * (24 + drawn(25, third)),
    }
}

/// The state behind another.
fn next_state(state: u64) -> u64
    ensures { result ≡ next_state state }
{
    ((state as u128 * FACTOR + SUMMAND) % STATES) as u64
}

/// A number below `count`, from a state.
fn drawn(count: u64, state: u64) -> u64
    requires { 0 < count }
    ensures value { result ≡ drawn count state }
    ensures within { result < count }
{
    state / (1 << 33) % count
}
