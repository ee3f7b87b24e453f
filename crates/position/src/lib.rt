// Positions in metres, and their turns: document 01, "From elements to position".
#![tactic(auto)]

ghost use Rattle.std.specs.Prelude.{◌≡◌, ◌^◌};
ghost use Rattle.integer.specs.Bound.{Within};
ghost use Rattle.position.specs.Box.{Turnable, PlaneBox};
ghost use Rattle.position.specs.Contract.{TurnedPair, Celestial};
ghost use Rattle.position.specs.Turn.{turned_xy, turned_yz, earth_fixed_of};

use integer::ONE;
use trig::Sines;

#[derive(Clone, Copy)]
pub struct Position {
    pub x: i64,
    pub y: i64,
    pub z: i64,
}

// The turn of two components by an angle.
fn turned(first: i64, second: i64, angle: Sines) -> (i64, i64)
    requires { Within (2 ^ 31) first × Within (2 ^ 31) second }
    ensures { TurnedPair first second angle.angle result }
{
    let c = angle.cosine;
    let s = angle.sine;
    (
        (first * c - second * s) / ONE,
        (first * s + second * c) / ONE,
    )
}

// An angle comes with its sine and cosine, which several turns share.
impl Position {
    // Two turns of two lines: one for both would take its axes as numbers. Their bounds are asked, and are no invariant,
    // since the shade test takes any position.

    // The turn of (x, y) by an angle.
    fn turn_xy(self, angle: Sines) -> Position
        requires { Turnable self }
        ensures { result ≡ turned_xy self angle.angle }
    {
        let (x, y) = turned(self.x, self.y, angle);
        Position { x, y, z: self.z }
    }

    // The turn of (y, z) by an angle.
    fn turn_yz(self, angle: Sines) -> Position
        requires { Turnable self }
        ensures { result ≡ turned_yz self angle.angle }
    {
        let (y, z) = turned(self.y, self.z, angle);
        Position { x: self.x, y, z }
    }

    // The celestial position of one in the plane of the orbit. It is for `orbit`, whose accepted elements
    // keep a position in the plane within these bounds.
    pub fn celestial(self, argument_of_perigee: Sines, inclination: Sines, node: Sines) -> Position
        requires { PlaneBox self }
        ensures { Celestial self argument_of_perigee.angle inclination.angle node.angle result }
    {
        self.turn_xy(argument_of_perigee)
            .turn_yz(inclination)
            .turn_xy(node)
    }

    // The Earth-fixed position of a celestial one, with the angle GHAA: (y, x) is turned, so that the turn
    // goes the other way. The components are asked to be within 2^31, so that a product with a sine fits;
    // those that `celestial` gives are.
    pub fn earth_fixed(self, ghaa: u32) -> Position
        requires { Turnable self }
        ensures { result ≡ earth_fixed_of self ghaa }
    {
        let (y, x) = turned(self.y, self.x, Sines::of(ghaa));
        Position { x, y, z: self.z }
    }
}
