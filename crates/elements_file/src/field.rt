// The elements with one of them read.
ghost use Rattle.std.specs.Prelude.{◌≡◌, ◌≤◌};
ghost use Rattle.elements_file.specs.Numbers.{largest, magnitude_of};
ghost use Rattle.elements_file.specs.Fields.{stored};

use crate::number::Number;
use elements::Elements;

// The number is that of the element, counted from 0 in the order of the file, which holds it: lines are
// read so far only.
#[tactic(auto, unfolding(crate::specs::Fields::stored, crate::specs::Numbers::largest))]
pub(crate) fn stored(elements: Elements, element: u32, number: Number) -> Elements
    requires { magnitude_of number ≤ largest element number.negative }
    ensures { result ≡ stored elements element number }
{
    match element {
        0 => Elements {
            eccentricity: number.magnitude() as u32,
            ..elements
        },
        1 => Elements {
            semi_major_axis: number.magnitude() as u32,
            ..elements
        },
        2 => Elements {
            inclination: number.magnitude() as u32,
            ..elements
        },
        3 => Elements {
            node: number.magnitude() as u32,
            ..elements
        },
        4 => Elements {
            argument_of_perigee: number.magnitude() as u32,
            ..elements
        },
        5 => Elements {
            mean_anomaly: number.magnitude() as u32,
            ..elements
        },
        6 => Elements {
            mean_motion: number.magnitude() as u32,
            ..elements
        },
        7 => Elements {
            node_rate: number.signed() as i32,
            ..elements
        },
        8 => Elements {
            perigee_rate: number.signed() as i32,
            ..elements
        },
        9 => Elements {
            epoch_revolution: number.magnitude() as u32,
            ..elements
        },
        10 => Elements {
            epoch: number.signed(),
            ..elements
        },
        11 => Elements {
            half_mean_motion_derivative: number.signed() as i32,
            ..elements
        },
        _ => elements,
    }
}
