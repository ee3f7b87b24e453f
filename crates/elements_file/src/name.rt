// The names of the elements.
ghost use Rattle.std.specs.Prelude.{◌≡◌};
ghost use Rattle.elements_file.specs.Contract.{NameAt};
ghost use Rattle.elements_file.specs.Names.{name_byte};

// A row of 28 bytes for each element, in the order of the file.
// One array: behind a name `name_byte` reads on into the next row.
const NAMES: [u8; 336] = *b"\
    eccentricity                \
    semi_major_axis             \
    inclination                 \
    node                        \
    argument_of_perigee         \
    mean_anomaly                \
    mean_motion                 \
    node_rate                   \
    perigee_rate                \
    epoch_revolution            \
    epoch                       \
    half_mean_motion_derivative ";

// Byte k of the row of an element. The reader has an element that is due by then, and k counts its bytes.
pub(crate) fn byte(element: u32, k: usize) -> u8
    requires { NameAt element k }
    ensures { result ≡ name_byte element k }
{
    NAMES
        .get(28 * (element as usize) + k)
        .copied()
        .unwrap_or(b' ')
}
