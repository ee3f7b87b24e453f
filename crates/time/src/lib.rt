// Times that document 01 allows.
#![tactic(auto)]

ghost use Rattle.std.specs.Prelude.{◌≡◌};
ghost use Rattle.time.specs.Range.{in_range};

// Whether an epoch or a time lies in the range of refusal 8.
#[tactic(auto, unfolding(crate::specs::Range::in_range))]
pub fn in_range(time: i64) -> bool
    ensures { result ≡ in_range time }
{
    (-2_834_956_800..=3_476_476_799).contains(&time)
}
