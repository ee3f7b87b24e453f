// The listing program: reads a label file on standard input and prints its counts and its labels, or the
// refusal. An input that cannot be read to its end is no file: it prints the one line `failed`.
#![tactic(auto)]

ghost use Rattle.std.specs.Prelude.{◌≡◌, ◌*◌, ◌≤◌, length};
ghost use Rattle.label_file.specs.File.{longest};
ghost use Rattle.label_file.specs.Reading.{file_reading};
ghost use Rattle.listing.specs.Contract.{EndsWithin, RoomMade};

use label::Label;
use label_file::LONGEST;
use refusal::RefusedAt;
use std::io::{self, Read};
use trailer::{Contents, Counts};

// Makes room for more bytes behind the first `end` of a window: of a full one the second half is kept, at
// its start. The answer is where the kept bytes end.
#[tactic(auto, unfolding(label_file::specs::File::longest, trailer::specs::Trailer::trailer_size))]
fn make_room(window: &mut [u8], end: usize) -> usize
    requires { (length window.old ≡ 2 * longest) × (end ≤ 2 * longest) }
    ensures { RoomMade window.old end window.new result }
{
    if end < window.len() {
        return end;
    }
    let mut half = [0u8; LONGEST];
    let middle = LONGEST;
    half.copy_from_slice(&window[middle..]);
    window[..middle].copy_from_slice(&half);
    middle
}

// Reads the input up to its end. Of an input that does not fit the window the last bytes are kept, at
// least as many as the longest file has, and not the input's length: no answer needs more, by the laws
// `tail_suffices` and `body_ahead` of label_file. A read that fails is told from the end: a file whose end
// could not be read must not be listed. A proved loop has to end, so its turns have a number that no run uses
// up.
#[tactic(auto, unfolding(label_file::specs::File::longest, trailer::specs::Trailer::trailer_size))]
fn read_input<R: Read>(input: &mut R, window: &mut [u8]) -> Option<usize>
    requires { length window.old ≡ 2 * longest }
    ensures { EndsWithin (2 * longest) result }
{
    let mut end = 0;
    for _ in 0..u64::MAX {
        let Ok(more) = input.read(&mut window[end..]) else {
            return None;
        };
        if more == 0 {
            return Some(end);
        }
        end = make_room(window, end + more);
    }
    None
}

// Time, revolution, side, shade, reading, elevation sine, and the bits of the watts.
fn print_label(rt: &impl Print, label: Label) -> io::Result<()> {
    let Label {
        time,
        revolution,
        side,
        shade,
        reading,
        elevation,
    } = label;
    let code = reading.code();
    let watts = reading.watts_bits();
    println!(rt; "{time} {revolution} {side} {shade} {code} {elevation} {watts:08x}")
}

// Lines of this program alone, each printed at one place.
fn print_counts(rt: &impl Print, counts: Counts) -> io::Result<()> {
    println!(rt;
        "labels {} training {} test {}",
        counts.labels, counts.training, counts.test
    )
}

fn print_refusal(rt: &impl Print, refused: RefusedAt) -> io::Result<()> {
    let number = refused.refusal.number();
    let place = refused.place;
    println!(rt; "refused {number} at {place}")
}

// Standard output has its line also where standard error can't be written.
fn print_failure(rt: &(impl Print + Eprint)) -> io::Result<()> {
    let told = eprintln!(rt; "listing: standard input could not be read to its end");
    println!(rt; "failed")?;
    told
}

fn print_labels(rt: &impl Print, file: &[u8], contents: Contents) -> io::Result<()>
    requires { file_reading file.now ≡ Ok contents }
{
    for number in 0..contents.counts.labels {
        print_label(rt, label_file::label_at(file, contents, number))?;
    }
    Ok(())
}

fn list(rt: &impl Print, file: &[u8]) -> io::Result<()> {
    let size = file.len();
    match label_file::read(file, size) {
        Err(refused) => print_refusal(rt, refused),
        Ok(contents) => {
            print_counts(rt, contents.counts)?;
            print_labels(rt, file, contents)
        }
    }
}

#[tactic(auto, unfolding(label_file::specs::File::longest, trailer::specs::Trailer::trailer_size))]
fn main(rt: HostRuntime) -> io::Result<()> {
    let mut window = [0u8; 2 * LONGEST];
    let input = read_input(&mut rt.reader(), &mut window);
    match input {
        None => print_failure(&rt),
        Some(end) => list(&rt, &window[..end]),
    }
}
