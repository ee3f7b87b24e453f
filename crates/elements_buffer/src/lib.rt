// Elements in 52 bytes: a row of a table of element sets, and `elements` of the C interface.
#![tactic(auto)]

ghost use Rattle.std.specs.Prelude.{◌≡◌, ◌+◌, ◌≤◌, length};
ghost use Rattle.std.proofs.lemmas.List.Edits.{sets};
ghost use Rattle.elements_buffer.specs.Buffer.{elements_of, elements_bytes};

use elements::Elements;
use endian::LittleEndian;

pub const SIZE: usize = 52;

// The elements at the start of some bytes. Its callers have found that there are as many.
#[tactic(auto, unfolding(crate::specs::Buffer::elements_of))]
pub fn read_elements(bytes: &[u8]) -> Elements
    requires { 52 ≤ length bytes.now }
    ensures { result ≡ elements_of bytes.now }
{
    Elements {
        epoch: i64::read(bytes, 0),
        eccentricity: u32::read(bytes, 8),
        semi_major_axis: u32::read(bytes, 12),
        inclination: u32::read(bytes, 16),
        node: u32::read(bytes, 20),
        argument_of_perigee: u32::read(bytes, 24),
        mean_anomaly: u32::read(bytes, 28),
        mean_motion: u32::read(bytes, 32),
        node_rate: i32::read(bytes, 36),
        perigee_rate: i32::read(bytes, 40),
        epoch_revolution: u32::read(bytes, 44),
        half_mean_motion_derivative: i32::read(bytes, 48),
    }
}

// Its callers have found that there is room.
pub fn write_elements(buffer: &mut [u8], at: usize, elements: Elements)
    requires { at + 52 ≤ length buffer.old }
    ensures { buffer.new ≡ sets buffer.old at (elements_bytes elements) }
{
    let numbers = [
        elements.eccentricity,
        elements.semi_major_axis,
        elements.inclination,
        elements.node,
        elements.argument_of_perigee,
        elements.mean_anomaly,
        elements.mean_motion,
        integer::bits_of_i32(elements.node_rate),
        integer::bits_of_i32(elements.perigee_rate),
        elements.epoch_revolution,
        integer::bits_of_i32(elements.half_mean_motion_derivative),
    ];
    elements.epoch.write(buffer, at);
    endian::write_words(buffer, at + 8, &numbers);
}
