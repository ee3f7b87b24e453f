// The least and the greatest of numbers, by the order of IEEE 754, in which the two zeros are equal.
#![tactic(auto)]

ghost use Rattle.std.specs.Prelude.{◌≡◌};
ghost use Rattle.extreme.specs.Extremes.{ahead, keep, is_of};

// Which extreme: lesser numbers go ahead, or greater ones.
// A kind, and no closure: `keep` and the laws of the order speak of both.
#[derive(Clone, Copy)]
pub enum Kind {
    Least,
    Greatest,
}

fn goes_ahead(kind: Kind, x: f32, y: f32) -> bool
    ensures { result ≡ ahead kind x y }
{
    match kind {
        Kind::Least => x < y,
        Kind::Greatest => y < x,
    }
}

// The least or the greatest number, where there are any, with one number more. Of equals the earlier stands.
pub fn with(extreme: Option<f32>, kind: Kind, x: f32) -> Option<f32>
    ensures { result ≡ keep kind extreme x }
{
    match extreme {
        Some(held) if !goes_ahead(kind, x, held) => Some(held),
        _ => Some(x),
    }
}

// Whether it can be the extreme of so many finite numbers.
#[tactic(auto, using(crate::proofs::FiniteTests::finite_is))]
pub fn is_of(extreme: Option<f32>, numbers: u32) -> bool
    ensures { result ≡ is_of numbers extreme }
{
    match extreme {
        None => numbers == 0,
        Some(x) => numbers != 0 && x.is_finite(),
    }
}
