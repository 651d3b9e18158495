//! Draws from a sequence of numbers.
ghost use Rattle.std.specs.Prelude.{◌≡◌, ◌<◌};
ghost use Rattle.call_generator.specs.Draws.{next_number, drawn};

/// What each number of the sequence is multiplied with, for the next one.
const FACTOR: u64 = 6_364_136_223_846_793_005;

/// What is added then.
const SUMMAND: u64 = 1_442_695_040_888_963_407;

/// The number after a number of the sequence.
fn next_number(number: u64) -> u64
    ensures { result ≡ next_number number }
{
    number.wrapping_mul(FACTOR).wrapping_add(SUMMAND)
}

/// Goes on to the next number, and draws from it.
pub(crate) fn draw(number: &mut u64, below: u64) -> u64
    requires some { 0 < below }
    ensures number { number.new ≡ next_number number.old }
    ensures drawn { result ≡ drawn number.new below }
    ensures within { result < below }
{
    *number = next_number(*number);
    (*number >> 33) % below
}
