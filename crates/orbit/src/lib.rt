// From orbital elements to position: document 01, "From elements to position".
#![tactic(auto)]

mod ellipse;
mod turns;

ghost use Rattle.std.specs.Prelude.{◌≡◌, ◌≤◌};
ghost use Rattle.trig.specs.Sines.{SinesAt};
ghost use Rattle.orbit.specs.Placement.{node_at};
ghost use Rattle.orbit.specs.Contract.{PlaneFor, StateAt, PlacedAt};

use elements::{Elements, ElementsAt};
use ellipse::Ellipse;
use kepler::Anomaly;
use position::Position;
use refusal::Refusal;
use trig::Sines;

// Where a satellite is at a time: the revolution, the mean anomaly, the eccentric anomaly with its
// halvings, the celestial position and the radius in metres, and the node as drifted.
#[derive(Clone, Copy)]
pub struct State {
    pub revolution: i32,
    pub mean_anomaly: u32,
    pub anomaly: Anomaly,
    pub position: Position,
    pub radius: i64,
    pub node: u32,
}

// What all times share of an orbit: the ratio of its axes, in units of 2^-30, and its inclination.
#[derive(Clone, Copy)]
pub struct Plane {
    pub minor_axis: u32,
    pub inclination: Sines,
}

impl Plane {
    // It is for elements that passed the checks: beyond an eccentricity of 1 there is no minor axis.
    pub fn of(elements: Elements) -> Plane
        requires { elements.eccentricity ≤ 9_000_000 }
        ensures { PlaneFor elements result }
    {
        Plane {
            minor_axis: ellipse::minor_axis(elements.eccentricity),
            inclination: Sines::of(elements.inclination),
        }
    }
}

// The node as drifted. Labelling needs its sines twice: for the position and for the Sun's elevation.
#[tactic(auto, unfolding(crate::specs::Placement::node_at))]
pub fn node_at(at: ElementsAt) -> Sines
    ensures { SinesAt (node_at at.elements at.time) result }
{
    turns::drift_at(at, at.elements.node, at.elements.node_rate)
}

// The state at a time: the plane is computed once for all times, and the node once for the time.
pub fn state_at(at: ElementsAt, plane: Plane, node: Sines) -> State
    requires { PlaneFor at.elements plane × (node.angle ≡ node_at at.elements at.time) }
    ensures { StateAt at.elements at.time result }
{
    let ellipse = Ellipse {
        semi_major_axis: at.elements.semi_major_axis,
        eccentricity: at.elements.eccentricity,
        minor_axis: plane.minor_axis,
    };
    let phase = turns::phase_at(at);
    let perigee = Sines::of(phase.argument_of_perigee);
    let anomaly = kepler::eccentric_anomaly(ellipse.eccentricity, phase.mean_anomaly);
    let sines = Sines::of(anomaly.angle);
    let in_plane = ellipse.in_plane(sines.cosine, sines.sine);
    State {
        revolution: phase.revolution,
        mean_anomaly: phase.mean_anomaly,
        anomaly,
        position: in_plane.celestial(perigee, plane.inclination, node),
        radius: ellipse.radius(sines.cosine),
        node: node.angle,
    }
}

// The position of a satellite with any elements at any time, or the refusal.
pub fn position(elements: Elements, time: i64) -> Result<State, Refusal>
    ensures { PlacedAt elements time result }
{
    let at = ElementsAt::of(elements, time)?;
    let plane = Plane::of(elements);
    Ok(state_at(at, plane, node_at(at)))
}
