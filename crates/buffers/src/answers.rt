// The bytes of answers, in the order of include/yurdelmiz.h. A function that fills a buffer is called once
// its length is found to be the header's.
ghost use Rattle.std.specs.Prelude.{◌≡◌, ◌+◌, ◌^◌, ◌≤◌, ◌<◌, nat_abs, length};
ghost use Rattle.std.proofs.lemmas.List.Edits.{sets};
ghost use Rattle.std.specs.Int.{w32};
ghost use Rattle.std.proofs.Common.{of_z};
ghost use Rattle.endian.specs.LittleEndian.{bytes4, bytes8};
ghost use Rattle.integer.specs.Bound.{Within};
ghost use Rattle.sun.specs.Contract.{WithinOne};
ghost use Rattle.buffers.specs.Answers.{anomaly_bytes, sun_bytes, position_bytes, state_bytes, counts_bytes, read_bytes, add_bytes, salvage_bytes, found_bytes};

use endian::LittleEndian;
use kepler::Anomaly;
use orbit::State;
use position::Position;
use sun::Sun;
use trailer::{Contents, Counts};

#[tactic(auto, using(endian::proofs::Words::words_fill), unfolding(crate::specs::Answers::anomaly_bytes))]
pub fn write_anomaly(answer: &mut [u8], anomaly: Anomaly)
    requires { length answer.old ≡ 8 }
    ensures { answer.new ≡ anomaly_bytes anomaly }
{
    let numbers = [anomaly.angle, anomaly.halvings];
    endian::write_words(answer, 0, &numbers);
}

// A direction's components are within the range of 32 bits.
#[tactic(auto, using(integer::proofs::Bounds::sfits_within))]
fn component_bits(component: i64) -> u32
    requires { Within (2 ^ 30) component }
    ensures { result ≡ of_z w32 component }
{
    integer::bits_of_i32(component as i32)
}

#[tactic(auto, using(endian::proofs::Words::words_fill), unfolding(crate::specs::Answers::sun_bytes))]
pub fn write_sun(answer: &mut [u8], sun: Sun)
    requires { (length answer.old ≡ 28) × WithinOne sun.direction }
    ensures { answer.new ≡ sun_bytes sun }
{
    let direction = sun.direction;
    let numbers = [
        sun.mean_anomaly,
        sun.mean_longitude,
        sun.true_longitude,
        sun.greenwich_hour_angle,
        component_bits(direction.x),
        component_bits(direction.y),
        component_bits(direction.z),
    ];
    endian::write_words(answer, 0, &numbers);
}

#[tactic(auto, using(endian::proofs::Stores::then), unfolding(crate::specs::Answers::position_bytes, endian::specs::LittleEndian::bytes8, endian::specs::LittleEndian::bytes4))]
fn write_position(answer: &mut [u8], at: usize, position: Position)
    requires { at + 24 ≤ length answer.old }
    ensures { answer.new ≡ sets answer.old at (position_bytes position) }
{
    position.x.write(answer, at);
    position.y.write(answer, at + 8);
    position.z.write(answer, at + 16);
}

// The radius is at most that of the highest apogee.
pub fn write_state(answer: &mut [u8], state: State, earth_fixed: Position)
    requires { (length answer.old ≡ 68) × (nat_abs state.radius < 2 ^ 32) }
    ensures { answer.new ≡ state_bytes state earth_fixed }
{
    let anomaly = state.anomaly;
    let numbers = [
        integer::bits_of_i32(state.revolution),
        anomaly.angle,
        anomaly.halvings,
        integer::magnitude(state.radius) as u32,
    ];
    endian::write_words(answer, 0, &numbers);
    write_position(answer, 16, state.position);
    state.node.write(answer, 40);
    write_position(answer, 44, earth_fixed);
}

#[tactic(auto, unfolding(crate::specs::Answers::counts_bytes))]
pub fn write_counts(answer: &mut [u8], at: usize, counts: Counts)
    requires { at + 20 ≤ length answer.old }
    ensures { answer.new ≡ sets answer.old at (counts_bytes counts) }
{
    let numbers = [
        counts.labels,
        counts.training,
        counts.test,
        counts.dark,
        counts.dark_test,
    ];
    endian::write_words(answer, at, &numbers);
}

pub fn write_reading(answer: &mut [u8], contents: Contents)
    requires { length answer.old ≡ 24 }
    ensures { answer.new ≡ read_bytes contents.form contents.counts }
{
    write_counts(answer, 0, contents.counts);
    (contents.form.size() as u32).write(answer, 20);
}

pub fn write_adding(answer: &mut [u8], counts: Counts, size: usize)
    requires { length answer.old ≡ 28 }
    ensures { answer.new ≡ add_bytes counts size }
{
    (size as u64).write(answer, 0);
    write_counts(answer, 8, counts);
}

#[tactic(auto, using(endian::proofs::Stores::then, endian::proofs::Stores::over_all), unfolding(crate::specs::Answers::salvage_bytes, endian::specs::LittleEndian::bytes8, endian::specs::LittleEndian::bytes4))]
pub fn write_salvage(answer: &mut [u8], labels: u32, dropped: usize)
    requires { length answer.old ≡ 12 }
    ensures { answer.new ≡ salvage_bytes labels dropped }
{
    labels.write(answer, 0);
    (dropped as u64).write(answer, 4);
}

#[tactic(auto, using(endian::proofs::Stores::over_all), unfolding(endian::specs::LittleEndian::bytes4))]
pub fn write_figure(answer: &mut [u8], figure: u32)
    requires { length answer.old ≡ 4 }
    ensures { answer.new ≡ bytes4 figure }
{
    figure.write(answer, 0);
}

#[tactic(auto, using(endian::proofs::Stores::then, endian::proofs::Stores::over_all), unfolding(crate::specs::Answers::found_bytes, endian::specs::LittleEndian::bytes8, endian::specs::LittleEndian::bytes4))]
pub fn write_found(answer: &mut [u8], offset: usize, table: u32)
    requires { length answer.old ≡ 12 }
    ensures { answer.new ≡ found_bytes offset table }
{
    (offset as u64).write(answer, 0);
    table.write(answer, 8);
}

#[tactic(auto, using(endian::proofs::Stores::over_all), unfolding(endian::specs::LittleEndian::bytes8, endian::specs::LittleEndian::bytes4))]
pub fn write_size(answer: &mut [u8], size: usize)
    requires { length answer.old ≡ 8 }
    ensures { answer.new ≡ bytes8 size }
{
    (size as u64).write(answer, 0);
}
