// The calls of the C interface, as include/yurdelmiz.h documents them: numbers and byte slices only, with a
// refusal's number as the status. The crate yurdelmiz_c exports them.
#![tactic(auto)]

ghost use Rattle.std.specs.Prelude.{◌≡◌};
ghost use Rattle.trig.specs.Contract.{CosineAt};
ghost use Rattle.trig.specs.ExactSine.{SineAt};
ghost use Rattle.refusal.specs.Numbers.{number_of};
ghost use Rattle.statuses.specs.Status.{status_at};
ghost use Rattle.yurdelmiz.specs.Calls.{kepler_call, sun_call, position_call, shade_call, elements_call, two_line_call, find_set_call, put_set_call, label_call, add_call, read_call, dark_test_call, scale_call, salvage_call, open_call, packet_call, close_call};

use element_sets::Row;
use position::Position;
use refusal::RefusedAt;
use sun::Direction;

// The status of a buffer whose length is not the header's.
const BAD_BUFFER: u32 = 255;

// The tables that a set is found in.
const PAST: u32 = 0;

const FORECAST: u32 = 1;

// In place of a figure that a file's trailer does not hold: no file has as many labels.
const NOT_HELD: u32 = 0xffff_ffff;

fn status_of(refused: RefusedAt) -> u64
    ensures { result ≡ status_at (number_of refused.refusal) refused.place }
{
    statuses::status_at(refused.refusal.number(), refused.place)
}

pub fn yurdelmiz_sine(angle: u32) -> i64
    ensures { SineAt angle result }
{
    trig::sine(angle)
}

pub fn yurdelmiz_cosine(angle: u32) -> i64
    ensures { CosineAt angle result }
{
    trig::cosine(angle)
}

#[tactic(auto, unfolding(crate::specs::Calls::kepler_call, statuses::specs::Call::call_of))]
pub fn yurdelmiz_kepler(eccentricity: u32, mean_anomaly: u32, answer: &mut [u8]) -> u32
    ensures { record { status = result; answer = answer.new } ≡ kepler_call eccentricity mean_anomaly answer.old }
{
    if answer.len() != 8 {
        return BAD_BUFFER;
    }
    match kepler::solve(eccentricity, mean_anomaly) {
        Err(refusal) => refusal.number(),
        Ok(anomaly) => {
            buffers::write_anomaly(answer, anomaly);
            0
        }
    }
}

#[tactic(auto, unfolding(crate::specs::Calls::sun_call, statuses::specs::Call::call_of))]
pub fn yurdelmiz_sun(time: i64, answer: &mut [u8]) -> u32
    ensures { record { status = result; answer = answer.new } ≡ sun_call time answer.old }
{
    if answer.len() != 28 {
        return BAD_BUFFER;
    }
    match sun::find(time) {
        Err(refusal) => refusal.number(),
        Ok(sun) => {
            buffers::write_sun(answer, sun);
            0
        }
    }
}

#[tactic(auto, using(crate::proofs::Placed::time_in_range, crate::proofs::Placed::radius_small), unfolding(crate::specs::Calls::position_call, statuses::specs::Call::call_of, crate::specs::Calls::earth_fixed_at))]
pub fn yurdelmiz_position(elements: &[u8], time: i64, answer: &mut [u8]) -> u32
    ensures { record { status = result; answer = answer.new } ≡ position_call elements.now time answer.old }
{
    if elements.len() != 52 {
        return BAD_BUFFER;
    }
    if answer.len() != 68 {
        return BAD_BUFFER;
    }
    match orbit::position(elements_buffer::read_elements(elements), time) {
        Err(refusal) => refusal.number(),
        Ok(state) => {
            let sun = sun::sun_at(time);
            let position = state.position;
            let earth_fixed = position.earth_fixed(sun.greenwich_hour_angle);
            buffers::write_state(answer, state, earth_fixed);
            0
        }
    }
}

#[tactic(auto, unfolding(crate::specs::Calls::shade_call, statuses::specs::Call::call_of))]
pub fn yurdelmiz_shade(
    x: i64,
    y: i64,
    z: i64,
    sun_x: i64,
    sun_y: i64,
    sun_z: i64,
    answer: &mut [u8],
) -> u32
    ensures { record { status = result; answer = answer.new } ≡ shade_call (record { x = x; y = y; z = z }) (record { x = sun_x; y = sun_y; z = sun_z }) answer.old }
{
    if answer.len() != 1 {
        return BAD_BUFFER;
    }
    let position = Position { x, y, z };
    let sun = Direction {
        x: sun_x,
        y: sun_y,
        z: sun_z,
    };
    match eclipse::shade_test(position, sun) {
        Err(refusal) => refusal.number(),
        Ok(shade) => {
            answer[0] = shade.code();
            0
        }
    }
}

#[tactic(auto, using(crate::proofs::Filled::elements_fill, elements_file::proofs::Consistency::parsed_in_bounds), unfolding(crate::specs::Calls::elements_call, statuses::specs::Call::call_of))]
pub fn yurdelmiz_elements(text: &[u8], answer: &mut [u8]) -> u64
    ensures { record { status = result; answer = answer.new } ≡ elements_call text.now answer.old }
{
    if answer.len() != 52 {
        return BAD_BUFFER as u64;
    }
    match elements_file::parse(text) {
        Err(malformed) => {
            let number = statuses::fault_number(malformed.fault);
            let place = statuses::fault_place(malformed.line, malformed.element);
            statuses::status_at(number, place)
        }
        Ok(elements) => {
            elements_buffer::write_elements(answer, 0, elements);
            0
        }
    }
}

#[tactic(auto, using(crate::proofs::Filled::elements_fill), unfolding(crate::specs::Calls::two_line_call, statuses::specs::Call::call_of))]
pub fn yurdelmiz_two_line(
    first: &[u8],
    second: &[u8],
    semi_major_axis: u32,
    node_rate: i32,
    perigee_rate: i32,
    answer: &mut [u8],
) -> u64
    ensures { record { status = result; answer = answer.new } ≡ two_line_call first.now second.now semi_major_axis node_rate perigee_rate answer.old }
{
    if answer.len() != 52 {
        return BAD_BUFFER as u64;
    }
    let reading = two_line::read(first, second, semi_major_axis, node_rate, perigee_rate);
    match reading {
        Err(misread) => status_of(misread),
        Ok(elements) => {
            elements_buffer::write_elements(answer, 0, elements);
            0
        }
    }
}

#[tactic(auto, using(element_sets::proofs::Finds::past_row, element_sets::proofs::Finds::forecast_row), unfolding(crate::specs::Calls::find_set_call, statuses::specs::Call::call_of))]
pub fn yurdelmiz_find_set(
    past: &[u8],
    past_size: usize,
    forecast: &[u8],
    forecast_size: usize,
    time: i64,
    answer: &mut [u8],
) -> u32
    ensures { record { status = result; answer = answer.new } ≡ find_set_call past.now past_size forecast.now forecast_size time answer.old }
{
    if answer.len() != 12 {
        return BAD_BUFFER;
    }
    match element_sets::locate(past, past_size, forecast, forecast_size, time) {
        Err(refusal) => refusal.number(),
        Ok(row) => {
            match row {
                Row::Past(k) => buffers::write_found(answer, 52 * k, PAST),
                Row::Forecast(k) => buffers::write_found(answer, 52 * k, FORECAST),
            }
            0
        }
    }
}

#[tactic(auto, unfolding(crate::specs::Calls::put_set_call, statuses::specs::Call::buffer_call_of))]
pub fn yurdelmiz_put_set(elements: &[u8], buffer: &mut [u8], size: usize, answer: &mut [u8]) -> u32
    ensures { record { status = result; buffer = buffer.new; answer = answer.new } ≡ put_set_call elements.now buffer.old size answer.old }
{
    if elements.len() != 52 {
        return BAD_BUFFER;
    }
    let room = answer.len();
    if room != 8 {
        return BAD_BUFFER;
    }
    match element_sets::put(elements_buffer::read_elements(elements), buffer, size) {
        Err(refusal) => refusal.number(),
        Ok(end) => {
            buffers::write_size(answer, end);
            0
        }
    }
}

#[tactic(auto, unfolding(crate::specs::Calls::label_call, statuses::specs::Call::call_of, crate::specs::Calls::day_outcome, labelling::specs::Day::output_after))]
pub fn yurdelmiz_label(elements: &[u8], telemetry: &[u8], output: &mut [u8]) -> u64
    ensures { record { status = result; answer = output.new } ≡ label_call elements.now telemetry.now output.old }
{
    if elements.len() != 52 {
        return BAD_BUFFER as u64;
    }
    match labelling::label_day(elements_buffer::read_elements(elements), telemetry, output) {
        Err(refused) => status_of(refused),
        Ok(_) => 0,
    }
}

#[tactic(auto, using(crate::proofs::Additions::kept), unfolding(crate::specs::Calls::add_call, statuses::specs::Call::buffer_call_of))]
pub fn yurdelmiz_add(
    elements: &[u8],
    buffer: &mut [u8],
    size: usize,
    telemetry: &[u8],
    answer: &mut [u8],
) -> u64
    ensures { record { status = result; buffer = buffer.new; answer = answer.new } ≡ add_call elements.now buffer.old size telemetry.now answer.old }
{
    if elements.len() != 52 {
        return BAD_BUFFER as u64;
    }
    if answer.len() != 28 {
        return BAD_BUFFER as u64;
    }
    match labelling::add(
        elements_buffer::read_elements(elements),
        buffer,
        size,
        telemetry,
    ) {
        Err(refused) => status_of(refused),
        Ok(labelled) => {
            buffers::write_adding(answer, labelled.counts, labelled.end);
            0
        }
    }
}

#[tactic(auto, unfolding(crate::specs::Calls::read_call, statuses::specs::Call::call_of))]
pub fn yurdelmiz_read(file: &[u8], size: usize, answer: &mut [u8]) -> u64
    ensures { record { status = result; answer = answer.new } ≡ read_call file.now size answer.old }
{
    if answer.len() != 24 {
        return BAD_BUFFER as u64;
    }
    match label_file::read(file, size) {
        Err(refused) => status_of(refused),
        Ok(contents) => {
            buffers::write_reading(answer, contents);
            0
        }
    }
}

#[tactic(auto, using(crate::proofs::Figures::figure_is), unfolding(crate::specs::Calls::dark_test_call, statuses::specs::Call::call_of, buffers::specs::Answers::not_held))]
pub fn yurdelmiz_dark_test(tail: &[u8], size: u64, answer: &mut [u8]) -> u32
    ensures { record { status = result; answer = answer.new } ≡ dark_test_call tail.now size answer.old }
{
    if answer.len() != 4 {
        return BAD_BUFFER;
    }
    match label_file::read_tail(tail, size) {
        Err(refusal) => refusal.number(),
        Ok(labels) => {
            buffers::write_figure(answer, labels.unwrap_or(NOT_HELD));
            0
        }
    }
}

#[tactic(auto, unfolding(crate::specs::Calls::scale_call, statuses::specs::Call::call_of))]
pub fn yurdelmiz_scale(figures: &mut [u8], file: &[u8], size: usize) -> u64
    ensures { record { status = result; answer = figures.new } ≡ scale_call figures.old file.now size }
{
    if figures.len() != 48 {
        return BAD_BUFFER as u64;
    }
    let before = figures_buffer::read_figures(figures);
    match scale::add_file(before, file, size) {
        Err(refused) => status_of(refused),
        Ok(next) => {
            figures_buffer::write_figures(figures, next);
            0
        }
    }
}

#[tactic(auto, using(salvage::proofs::Written::refused_stays), unfolding(crate::specs::Calls::salvage_call, statuses::specs::Call::buffer_call_of))]
pub fn yurdelmiz_salvage(body: &[u8], output: &mut [u8], answer: &mut [u8]) -> u32
    ensures { record { status = result; buffer = output.new; answer = answer.new } ≡ salvage_call body.now output.old answer.old }
{
    if answer.len() != 12 {
        return BAD_BUFFER;
    }
    match salvage::keep_labels(body, output) {
        Err(refusal) => refusal.number(),
        Ok(kept) => {
            buffers::write_salvage(answer, kept.labels, kept.dropped);
            0
        }
    }
}

#[tactic(auto, unfolding(crate::specs::Calls::open_call, statuses::specs::Call::call_of))]
pub fn yurdelmiz_open(elements: &[u8], day: &mut [u8]) -> u32
    ensures { record { status = result; answer = day.new } ≡ open_call elements.now day.old }
{
    if elements.len() != 52 {
        return BAD_BUFFER;
    }
    if day.len() != 89 {
        return BAD_BUFFER;
    }
    let step = packets::open_day(elements_buffer::read_elements(elements));
    match step.outcome {
        Err(refused) => refused.refusal.number(),
        Ok(()) => {
            let opened = step.day;
            day_buffer::write_day(day, opened);
            0
        }
    }
}

#[tactic(auto, unfolding(crate::specs::Calls::packet_call, statuses::specs::Call::buffer_call_of))]
pub fn yurdelmiz_packet(day: &mut [u8], packet: &[u8], output: &mut [u8]) -> u64
    ensures { record { status = result; buffer = output.new; answer = day.new } ≡ packet_call day.old packet.now output.old }
{
    if day.len() != 89 {
        return BAD_BUFFER as u64;
    }
    let before = day_buffer::read_day(day);
    let step = packets::take_packet(before, packet, output);
    match step.outcome {
        Err(refused) => status_of(refused),
        Ok(()) => {
            let next = step.day;
            day_buffer::write_day(day, next);
            0
        }
    }
}

#[tactic(auto, unfolding(crate::specs::Calls::close_call, statuses::specs::Call::buffer_call_of))]
pub fn yurdelmiz_close(day: &mut [u8], output: &mut [u8]) -> u64
    ensures { record { status = result; buffer = output.new; answer = day.new } ≡ close_call day.old output.old }
{
    if day.len() != 89 {
        return BAD_BUFFER as u64;
    }
    let before = day_buffer::read_day(day);
    let step = packets::close_day(before, output);
    match step.outcome {
        Err(refused) => status_of(refused),
        Ok(()) => {
            let closed = step.day;
            day_buffer::write_day(day, closed);
            0
        }
    }
}
