// The place on the ellipse in the plane of the orbit, and the radius: document 01, "From elements to
// position". The semi-major axis and the eccentricity are those of accepted elements.
ghost use Rattle.std.specs.Prelude.{◌≡◌, ◌≤◌, ◌^◌};
ghost use Rattle.integer.specs.Bound.{Within};
ghost use Rattle.orbit.specs.Ellipse.{e30, minor_axis, in_plane_x, in_plane_y, radius};
ghost use Rattle.orbit.specs.Contract.{InPlane};

use position::Position;

// The eccentricity in units of 2^-30.
#[tactic(auto, unfolding(crate::specs::Ellipse::e30))]
fn eccentricity30(e: u32) -> u64
    requires { e ≤ 9_000_000 }
    ensures { (result ≡ e30 e) × (result ≤ 966_367_641) }
{
    (e as u64) * trig::ONE / 10_000_000
}

// The ratio of the minor to the major axis, in units of 2^-30.
#[tactic(auto, using(crate::proofs::Distances::minor_le), unfolding(crate::specs::Ellipse::minor_axis))]
pub(crate) fn minor_axis(e: u32) -> u32
    requires { e ≤ 9_000_000 }
    ensures { (result ≡ minor_axis e) × (result ≤ 2 ^ 30) }
{
    let k = eccentricity30(e);
    integer::square_root(0x1000_0000_0000_0000 - k * k) as u32
}

// The minor axis in units of 2^-30 of the major.
#[derive(Clone, Copy)]
pub(crate) struct Ellipse {
    pub semi_major_axis: u32,
    pub eccentricity: u32,
    pub minor_axis: u32,
    ghost axis_le: { semi_major_axis ≤ 100_000_000 },
    ghost eccentricity_le: { eccentricity ≤ 9_000_000 },
    ghost minor_le: { minor_axis ≤ 2 ^ 30 },
}

impl Ellipse {
    #[tactic(auto, unfolding(crate::specs::Ellipse::in_plane_x))]
    fn x(self, cosine: i64) -> i64
        requires { Within (2 ^ 30) cosine }
        ensures { result ≡ in_plane_x self.semi_major_axis self.eccentricity cosine }
    {
        integer::scaled(
            self.semi_major_axis as i64,
            cosine - eccentricity30(self.eccentricity) as i64,
        )
    }

    #[tactic(auto, unfolding(crate::specs::Ellipse::in_plane_y))]
    fn y(self, sine: i64) -> i64
        requires { Within (2 ^ 30) sine }
        ensures { result ≡ in_plane_y self.semi_major_axis self.minor_axis sine }
    {
        integer::scaled(
            self.semi_major_axis as i64,
            integer::scaled(self.minor_axis as i64, sine),
        )
    }

    pub fn in_plane(self, cosine: i64, sine: i64) -> Position
        requires { Within (2 ^ 30) cosine × Within (2 ^ 30) sine }
        ensures { InPlane self.semi_major_axis self.eccentricity self.minor_axis cosine sine result }
    {
        Position {
            x: self.x(cosine),
            y: self.y(sine),
            z: 0,
        }
    }

    pub fn radius(self, cosine: i64) -> i64
        requires { Within (2 ^ 30) cosine }
        ensures { result ≡ radius self.semi_major_axis self.eccentricity cosine }
    {
        integer::scaled(
            self.semi_major_axis as i64,
            integer::ONE - integer::scaled(eccentricity30(self.eccentricity) as i64, cosine),
        )
    }
}
