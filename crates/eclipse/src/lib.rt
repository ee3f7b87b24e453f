// Shade, and the Sun's elevation above the plane of the orbit: document 01, "Sun and shade".
#![tactic(auto)]

ghost use Rattle.std.specs.Prelude.{◌≡◌, ◌^◌};
ghost use Rattle.integer.specs.Bound.{Within};
ghost use Rattle.sun.specs.Contract.{WithinOne};
ghost use Rattle.eclipse.specs.Dot.{dot_of};
ghost use Rattle.eclipse.specs.Shade.{side_squared, below_square, shade_behind, shade_of, any_beyond, shade_answer};
ghost use Rattle.position.specs.Box.{CelestialBox};
ghost use Rattle.eclipse.specs.Contract.{DepthBound, RadiusBound, SpreadAt, HeldAt, NormalAt, ElevationAt};

use integer::ONE;
use position::Position;
use refusal::Refusal;
use shade::Shade;
use sun::Direction;
use trig::Sines;

// Lengths in metres.
const EARTH_RADIUS: i64 = 6_378_000;

const SUN_DISTANCE: i64 = 149_600_000_000;

// The Sun's radius of 696,000 km less the Earth's, and the two together.
const RADII_APART: i64 = 689_622_000;

const RADII_TOGETHER: i64 = 702_378_000;

// The scalar product with a direction. By components, as `any_beyond` is, since they are a position's or a direction's.
fn dot(x: i64, y: i64, z: i64, direction: Direction) -> i64
    requires { Within (2 ^ 30) x × Within (2 ^ 30) y × Within (2 ^ 30) z × WithinOne direction }
    ensures { result ≡ dot_of x y z direction }
{
    (x * direction.x + y * direction.y + z * direction.z) / ONE
}

// The square of the distance from the line through the Earth and the Sun.
fn side_squared(position: Position, p: i64) -> i64
    requires { CelestialBox position × DepthBound p }
    ensures { result ≡ side_squared position p }
{
    let x = position.x;
    let y = position.y;
    let z = position.z;
    x * x + y * y + z * z - p * p
}

// What a shadow's radius differs by from the Earth's at a depth.
fn spread(depth: i64, radii: i64) -> i64
    requires { DepthBound depth × Within (2 ^ 30) radii }
    ensures { SpreadAt depth radii result }
{
    depth * radii / SUN_DISTANCE
}

fn below_square(squared_side: i64, radius: i64) -> bool
    requires { RadiusBound radius }
    ensures { result ≡ below_square squared_side radius }
{
    squared_side < radius * radius
}

// The shade at a depth behind the Earth.
fn shade_behind(depth: i64, squared_side: i64) -> Shade
    requires { DepthBound depth }
    ensures { result ≡ shade_behind depth squared_side }
{
    let umbra = EARTH_RADIUS - spread(depth, RADII_APART);
    if below_square(squared_side, umbra) {
        return Shade::Dark;
    }
    let penumbra = EARTH_RADIUS + spread(depth, RADII_TOGETHER);
    if below_square(squared_side, penumbra) {
        return Shade::Part;
    }
    Shade::Lit
}

// The shade at a celestial position. It makes no test of refusal 14: it is for labelling, whose positions and Suns
// have these bounds by the promises of `celestial` and `sun_at`, and for `shade_test`.
pub fn shade_at(position: Position, sun: Direction) -> Shade
    requires { CelestialBox position × WithinOne sun }
    ensures { result ≡ shade_of position sun }
{
    let p = dot(position.x, position.y, position.z, sun);
    if p < 0 {
        shade_behind(-p, side_squared(position, p))
    } else {
        Shade::Lit
    }
}

// Whether one of three components is beyond ±bound.
#[tactic(auto, unfolding(crate::specs::Shade::any_beyond))]
fn any_beyond(bound: u64, x: i64, y: i64, z: i64) -> bool
    ensures { result ≡ any_beyond bound x y z }
{
    bound < integer::magnitude(x) || bound < integer::magnitude(y) || bound < integer::magnitude(z)
}

// The shade test alone: of any position and Sun, or refusal 14.
pub fn shade_test(position: Position, sun: Direction) -> Result<Shade, Refusal>
    ensures { result ≡ shade_answer position sun }
{
    if any_beyond(200_000_000, position.x, position.y, position.z) {
        return Err(Refusal::Component);
    }
    if any_beyond(trig::ONE, sun.x, sun.y, sun.z) {
        return Err(Refusal::Component);
    }
    Ok(shade_at(position, sun))
}

// The orbit normal.
fn normal(inclination: Sines, node: Sines) -> Direction
    ensures { NormalAt inclination.angle node.angle result }
{
    let s = inclination.sine;
    Direction {
        x: integer::scaled(s, node.sine),
        y: -integer::scaled(s, node.cosine),
        z: inclination.cosine,
    }
}

// A sine held within ±2^30.
fn held(sine: i64) -> i64
    ensures { HeldAt sine result }
{
    sine.clamp(-ONE, ONE)
}

// The sine of the Sun's elevation above the plane of the orbit, whose node is the drifted one. It is for labelling,
// which has the sines of both angles for the position too, and whose Sun is within ±2^30 by the promise of `sun_at`.
pub fn elevation(inclination: Sines, node: Sines, sun: Direction) -> i32
    requires { WithinOne sun }
    ensures { ElevationAt inclination.angle node.angle sun result }
{
    let n = normal(inclination, node);
    held(dot(n.x, n.y, n.z, sun)) as i32
}
