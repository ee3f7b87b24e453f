// The field rules of a label.
ghost use Rattle.std.specs.Prelude.{◌≡◌};
ghost use Rattle.label.specs.Rules.{shade_allowed, elevation_allowed, watts_allowed, keeps_rules};

use crate::fields::Fields;
use shade::Shade;
use telemetry::float;

#[tactic(auto, unfolding(crate::specs::Rules::shade_allowed))]
fn shade_allowed(shade: u8) -> bool
    ensures { result ≡ shade_allowed shade }
{
    shade <= Shade::Part.code()
}

#[tactic(auto, unfolding(crate::specs::Rules::elevation_allowed))]
fn elevation_allowed(elevation: i32) -> bool
    ensures { result ≡ elevation_allowed elevation }
{
    -1_073_741_824 <= elevation && elevation <= 1_073_741_824
}

#[tactic(auto, unfolding(crate::specs::Rules::watts_allowed))]
fn watts_allowed(code: u8, watts: u32) -> bool
    ensures { result ≡ watts_allowed code watts }
{
    if code == 1 {
        float::finite_bits(watts)
    } else {
        watts == 0
    }
}

#[tactic(auto, unfolding(crate::specs::Rules::keeps_rules))]
pub(crate) fn keeps_rules(fields: Fields) -> bool
    ensures { result ≡ keeps_rules fields }
{
    time::in_range(fields.time)
        && fields.side == crate::side(fields.revolution)
        && shade_allowed(fields.shade)
        && fields.code <= 2
        && fields.padding == 0
        && elevation_allowed(fields.elevation)
        && watts_allowed(fields.code, fields.watts)
}
