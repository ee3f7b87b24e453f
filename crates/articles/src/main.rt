// Prints the worked example of source document 001, for Oscar-10 on 1985 August 12 at 01:45, beside
// the articles' figures.
#![tactic(auto)]

ghost use Rattle.sun.specs.Contract.{WithinOne};

use elements::Elements;
use orbit::State;
use shade::Shade;
use std::{fmt, io};
use sun::{Direction, Sun};
use trig::{HALF_TURN, ONE, Sines, TURN};

const EXAMPLE: i64 = -138_406_500;

// A number of ten-thousandths, written with its sign and its point.
#[derive(Clone, Copy)]
struct TenThousandths(i64);

impl fmt::Display for TenThousandths {
    fn fmt<W: fmt::Write>(&self, f: &mut fmt::Formatter<W>) -> fmt::Result {
        let sign = if self.0 < 0 { "-" } else { "" };
        let size = integer::magnitude(self.0);
        let whole = size / 10_000;
        let places = size % 10_000;
        write!(f, "{sign}{whole}.{places:04}")
    }
}

fn verdict(near: bool) -> &'static str {
    if near { "within" } else { "BEYOND" }
}

// An angle in degrees beside the article's, both in ten-thousandths of a degree. The article's is to be
// met within two.
fn angle(rt: &impl Print, name: &str, found: u32, article: u32) -> io::Result<()> {
    let exact = u64::from(found) * 3_600_000;
    let shown = TenThousandths(((exact + HALF_TURN) / TURN) as i64);
    let expected = TenThousandths(i64::from(article));
    let verdict = verdict(exact.abs_diff(u64::from(article) * TURN) <= 2 * TURN);
    println!(rt; "{name} {shown} article {expected} {verdict}")
}

// A sine beside the article's, to the nearest ten-thousandth; a sine is within 2^30.
fn component(rt: &impl Print, name: &str, found: i64, article: i64) -> io::Result<()> {
    let scaled = found % TURN as i64 * 10_000;
    let shown = TenThousandths(integer::floor_div(scaled + ONE as i64 / 2, ONE).quotient);
    let expected = TenThousandths(article);
    println!(rt; "{name} {shown} article {expected}")
}

fn of_sun(rt: &impl Print, sun: Sun) -> io::Result<()> {
    println!(rt; "Part 1, degrees")?;
    angle(rt, "MA", sun.mean_anomaly, 2_177_751)?;
    angle(rt, "ML", sun.mean_longitude, 1_404_681)?;
    angle(rt, "TL", sun.true_longitude, 1_393_144)?;
    angle(rt, "GHAA", sun.greenwich_hour_angle, 3_467_181)?;
    println!(rt; "Part 2, Sun and elevation")?;
    component(rt, "Xsun", sun.direction.x, -7583)?;
    component(rt, "Ysun", sun.direction.y, 5981)?;
    component(rt, "Zsun", sun.direction.z, 2593)
}

fn of_state(rt: &impl Print, state: State, sun: Direction) -> io::Result<()> {
    println!(rt; "Part 3, Oscar-10")?;
    let metres = integer::magnitude(state.radius);
    let verdict = verdict(metres.abs_diff(39_582_000) <= 10_000);
    println!(rt; "radius {metres} article 39582000 {verdict}")?;
    match eclipse::shade_test(state.position, sun) {
        Err(_) => refused(rt),
        Ok(Shade::Lit) => println!(rt; "lit"),
        Ok(Shade::Dark) => println!(rt; "dark"),
        Ok(Shade::Part) => println!(rt; "part"),
    }
}

fn refused(rt: &impl Print) -> io::Result<()> {
    println!(rt; "refused")
}

fn example(rt: &impl Print, sun: Sun) -> io::Result<()>
    requires { WithinOne sun.direction }
{
    of_sun(rt, sun)?;
    let inclination = trig::angle(256_000);
    let node = trig::angle(1_212_000);
    let sine = eclipse::elevation(Sines::of(inclination), Sines::of(node), sun.direction);
    component(rt, "elevation sine", i64::from(sine), 874)?;
    let elements = Elements {
        eccentricity: 6_100_000,
        semi_major_axis: 26_100_000,
        inclination,
        node,
        argument_of_perigee: trig::angle(401_000),
        mean_anomaly: trig::angle(1_293_000),
        mean_motion: 205_890_000,
        node_rate: 0,
        perigee_rate: 0,
        epoch_revolution: 1627,
        epoch: EXAMPLE,
        half_mean_motion_derivative: 0,
    };
    match orbit::position(elements, EXAMPLE) {
        Err(_) => refused(rt),
        Ok(state) => of_state(rt, state, sun.direction),
    }
}

fn main(rt: HostRuntime) -> io::Result<()> {
    match sun::find(EXAMPLE) {
        Err(_) => refused(&rt),
        Ok(sun) => example(&rt, sun),
    }
}
