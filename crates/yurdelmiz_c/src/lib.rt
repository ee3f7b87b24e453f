// The C interface, as include/yurdelmiz.h documents it: each function calls the one of the same name in
// the crate yurdelmiz, and its contract is the same. Crates can stand on that one, and not on an archive for C.
#![tactic(auto)]

ghost use Rattle.std.specs.Prelude.{◌≡◌};
ghost use Rattle.trig.specs.Contract.{CosineAt};
ghost use Rattle.trig.specs.ExactSine.{SineAt};
ghost use Rattle.yurdelmiz.specs.Calls.{kepler_call, sun_call, position_call, shade_call, elements_call, two_line_call, find_set_call, put_set_call, label_call, add_call, read_call, dark_test_call, scale_call, salvage_call, open_call, packet_call, close_call};

#[unsafe(no_mangle)]
pub extern "C" fn yurdelmiz_sine(angle: u32) -> i64
    ensures { SineAt angle result }
{
    yurdelmiz::yurdelmiz_sine(angle)
}

#[unsafe(no_mangle)]
pub extern "C" fn yurdelmiz_cosine(angle: u32) -> i64
    ensures { CosineAt angle result }
{
    yurdelmiz::yurdelmiz_cosine(angle)
}

#[unsafe(no_mangle)]
pub extern "C" fn yurdelmiz_kepler(eccentricity: u32, mean_anomaly: u32, answer: &mut [u8]) -> u32
    ensures { record { status = result; answer = answer.new } ≡ kepler_call eccentricity mean_anomaly answer.old }
{
    yurdelmiz::yurdelmiz_kepler(eccentricity, mean_anomaly, answer)
}

#[unsafe(no_mangle)]
pub extern "C" fn yurdelmiz_sun(time: i64, answer: &mut [u8]) -> u32
    ensures { record { status = result; answer = answer.new } ≡ sun_call time answer.old }
{
    yurdelmiz::yurdelmiz_sun(time, answer)
}

#[unsafe(no_mangle)]
pub extern "C" fn yurdelmiz_position(elements: &[u8], time: i64, answer: &mut [u8]) -> u32
    ensures { record { status = result; answer = answer.new } ≡ position_call elements.now time answer.old }
{
    yurdelmiz::yurdelmiz_position(elements, time, answer)
}

#[unsafe(no_mangle)]
pub extern "C" fn yurdelmiz_shade(
    x: i64,
    y: i64,
    z: i64,
    sun_x: i64,
    sun_y: i64,
    sun_z: i64,
    answer: &mut [u8],
) -> u32
    ensures { record { status = result; answer = answer.new } ≡ shade_call (record { x = x; y = y; z = z }) (record { x = sun_x; y = sun_y; z = sun_z }) answer.old }
{
    yurdelmiz::yurdelmiz_shade(x, y, z, sun_x, sun_y, sun_z, answer)
}

#[unsafe(no_mangle)]
pub extern "C" fn yurdelmiz_elements(text: &[u8], answer: &mut [u8]) -> u64
    ensures { record { status = result; answer = answer.new } ≡ elements_call text.now answer.old }
{
    yurdelmiz::yurdelmiz_elements(text, answer)
}

#[unsafe(no_mangle)]
pub extern "C" fn yurdelmiz_two_line(
    first: &[u8],
    second: &[u8],
    semi_major_axis: u32,
    node_rate: i32,
    perigee_rate: i32,
    answer: &mut [u8],
) -> u64
    ensures { record { status = result; answer = answer.new } ≡ two_line_call first.now second.now semi_major_axis node_rate perigee_rate answer.old }
{
    yurdelmiz::yurdelmiz_two_line(
        first,
        second,
        semi_major_axis,
        node_rate,
        perigee_rate,
        answer,
    )
}

#[unsafe(no_mangle)]
pub extern "C" fn yurdelmiz_find_set(
    past: &[u8],
    past_size: usize,
    forecast: &[u8],
    forecast_size: usize,
    time: i64,
    answer: &mut [u8],
) -> u32
    ensures { record { status = result; answer = answer.new } ≡ find_set_call past.now past_size forecast.now forecast_size time answer.old }
{
    yurdelmiz::yurdelmiz_find_set(past, past_size, forecast, forecast_size, time, answer)
}

#[unsafe(no_mangle)]
pub extern "C" fn yurdelmiz_put_set(
    elements: &[u8],
    buffer: &mut [u8],
    size: usize,
    answer: &mut [u8],
) -> u32
    ensures { record { status = result; buffer = buffer.new; answer = answer.new } ≡ put_set_call elements.now buffer.old size answer.old }
{
    yurdelmiz::yurdelmiz_put_set(elements, buffer, size, answer)
}

#[unsafe(no_mangle)]
pub extern "C" fn yurdelmiz_label(elements: &[u8], telemetry: &[u8], output: &mut [u8]) -> u64
    ensures { record { status = result; answer = output.new } ≡ label_call elements.now telemetry.now output.old }
{
    yurdelmiz::yurdelmiz_label(elements, telemetry, output)
}

#[unsafe(no_mangle)]
pub extern "C" fn yurdelmiz_add(
    elements: &[u8],
    buffer: &mut [u8],
    size: usize,
    telemetry: &[u8],
    answer: &mut [u8],
) -> u64
    ensures { record { status = result; buffer = buffer.new; answer = answer.new } ≡ add_call elements.now buffer.old size telemetry.now answer.old }
{
    yurdelmiz::yurdelmiz_add(elements, buffer, size, telemetry, answer)
}

#[unsafe(no_mangle)]
pub extern "C" fn yurdelmiz_read(file: &[u8], size: usize, answer: &mut [u8]) -> u64
    ensures { record { status = result; answer = answer.new } ≡ read_call file.now size answer.old }
{
    yurdelmiz::yurdelmiz_read(file, size, answer)
}

#[unsafe(no_mangle)]
pub extern "C" fn yurdelmiz_dark_test(tail: &[u8], size: u64, answer: &mut [u8]) -> u32
    ensures { record { status = result; answer = answer.new } ≡ dark_test_call tail.now size answer.old }
{
    yurdelmiz::yurdelmiz_dark_test(tail, size, answer)
}

#[unsafe(no_mangle)]
pub extern "C" fn yurdelmiz_scale(figures: &mut [u8], file: &[u8], size: usize) -> u64
    ensures { record { status = result; answer = figures.new } ≡ scale_call figures.old file.now size }
{
    yurdelmiz::yurdelmiz_scale(figures, file, size)
}

#[unsafe(no_mangle)]
pub extern "C" fn yurdelmiz_salvage(body: &[u8], output: &mut [u8], answer: &mut [u8]) -> u32
    ensures { record { status = result; buffer = output.new; answer = answer.new } ≡ salvage_call body.now output.old answer.old }
{
    yurdelmiz::yurdelmiz_salvage(body, output, answer)
}

#[unsafe(no_mangle)]
pub extern "C" fn yurdelmiz_open(elements: &[u8], day: &mut [u8]) -> u32
    ensures { record { status = result; answer = day.new } ≡ open_call elements.now day.old }
{
    yurdelmiz::yurdelmiz_open(elements, day)
}

#[unsafe(no_mangle)]
pub extern "C" fn yurdelmiz_packet(day: &mut [u8], packet: &[u8], output: &mut [u8]) -> u64
    ensures { record { status = result; buffer = output.new; answer = day.new } ≡ packet_call day.old packet.now output.old }
{
    yurdelmiz::yurdelmiz_packet(day, packet, output)
}

#[unsafe(no_mangle)]
pub extern "C" fn yurdelmiz_close(day: &mut [u8], output: &mut [u8]) -> u64
    ensures { record { status = result; buffer = output.new; answer = day.new } ≡ close_call day.old output.old }
{
    yurdelmiz::yurdelmiz_close(day, output)
}
