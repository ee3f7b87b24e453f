// The trailer of a label file, and the counts of labels in it: document 01, "Telemetry and labels".
#![tactic(auto)]

ghost use Rattle.std.specs.Prelude.{◌≡◌, ◌+◌, ◌≤◌, length};
ghost use Rattle.std.proofs.lemmas.List.Edits.{sets};
ghost use Rattle.trailer.specs.declared.Form.TheVariants.{Bytes24};
ghost use Rattle.trailer.specs.Trailer.{trailer_size, distance_back, form_of, stated_counts, trailer_bytes, counts_allowed, trailer_allowed, distance_in, trailer_at};

use endian::LittleEndian;

mod counting;

pub const MOST_LABELS: u32 = 1_024;

const SIZE_16: usize = 16;

const SIZE_24: usize = 24;

pub const LONGEST: usize = SIZE_24;

// The trailer, by its bytes: the one of 24 has the dark counts.
#[derive(Clone, Copy, Debug, PartialEq, Eq)]
pub enum Form {
    Bytes16,
    Bytes24,
}

#[derive(Clone, Copy, Debug, PartialEq, Eq)]
pub struct Counts {
    pub labels: u32,
    pub training: u32,
    pub test: u32,
    pub dark: u32,
    pub dark_test: u32,
}

// What a label file holds: the form of its trailer, and the counts of its labels.
#[derive(Clone, Copy, Debug, PartialEq, Eq)]
pub struct Contents {
    pub form: Form,
    pub counts: Counts,
}

impl Form {
    #[tactic(auto, unfolding(crate::specs::Trailer::trailer_size))]
    pub fn size(self) -> usize
        ensures { result ≡ trailer_size self }
    {
        match self {
            Form::Bytes16 => SIZE_16,
            Form::Bytes24 => SIZE_24,
        }
    }
}

// The form that a distance tells.
#[tactic(auto, unfolding(crate::specs::Trailer::form_of))]
fn form_of(distance: u32) -> Form
    ensures { result ≡ form_of distance }
{
    if distance as usize % label::SIZE == 0 {
        Form::Bytes24
    } else {
        Form::Bytes16
    }
}

// The distance from the end of a file back to its first label: the bytes of its labels and its trailer.
#[tactic(auto, using(crate::proofs::Trailers::size_bounds))]
pub fn distance_back(form: Form, labels: u32) -> usize
    ensures { result ≡ distance_back form labels }
{
    label::SIZE * (labels as usize) + form.size()
}

// Counts that some labels can have.
#[tactic(auto, unfolding(crate::specs::Trailer::counts_allowed))]
pub fn counts_allowed(stated: Counts) -> bool
    ensures { result ≡ counts_allowed stated }
{
    stated.training <= stated.labels
        && stated.test <= stated.labels - stated.training
        && stated.dark <= stated.labels
        && stated.dark_test <= stated.test
        && stated.dark_test <= stated.dark
}

#[tactic(auto, unfolding(crate::specs::Trailer::trailer_allowed))]
fn allowed(form: Form, stated: Counts, distance: u32, size: u64) -> bool
    ensures { result ≡ trailer_allowed form stated distance size }
{
    stated.labels <= MOST_LABELS
        && distance as usize == distance_back(form, stated.labels)
        && distance as u64 <= size
        && counts_allowed(stated)
}

// The counts in the bytes of a trailer, which its reader has found at the end of a file.
#[tactic(auto, unfolding(crate::specs::Trailer::stated_counts, crate::specs::Trailer::trailer_size))]
fn read_counts(form: Form, bytes: &[u8]) -> Counts
    requires { trailer_size form ≤ length bytes.now }
    ensures { result ≡ stated_counts form bytes.now }
{
    let counts = Counts {
        labels: u32::read(bytes, 0),
        training: u32::read(bytes, 4),
        test: u32::read(bytes, 8),
        dark: 0,
        dark_test: 0,
    };
    match form {
        Form::Bytes16 => counts,
        Form::Bytes24 => Counts {
            dark: u32::read(bytes, 12),
            dark_test: u32::read(bytes, 16),
            ..counts
        },
    }
}

// The distance in the last four bytes, where there are as many.
fn find_distance(last: &[u8]) -> u32
    requires { 4 ≤ length last.now }
    ensures { result ≡ distance_in last.now }
{
    let at = last.len() - 4;
    u32::read(&last[at..], 0)
}

// What the trailer at the end of some last bytes of a file of `size` bytes states.
pub fn find(last: &[u8], size: u64) -> Option<Contents>
    ensures { result ≡ trailer_at last.now size }
{
    let given = last.len();
    if given < SIZE_16 {
        return None;
    }
    let distance = find_distance(last);
    let form = form_of(distance);
    let own = form.size();
    if given < own {
        return None;
    }
    let at = given - own;
    let stated = read_counts(form, &last[at..]);
    let contents = Contents {
        form,
        counts: stated,
    };
    allowed(form, stated, distance, size).then_some(contents)
}

// Whoever writes a file has tested its room and the number of its labels by then.
#[tactic(auto, unfolding(crate::specs::Trailer::trailer_size, crate::specs::Trailer::trailer_bytes, crate::specs::Trailer::stated_bytes, endian::specs::LittleEndian::words, endian::specs::LittleEndian::bytes4))]
pub fn write_trailer(counts: Counts, out: &mut [u8], at: usize)
    requires { (at + trailer_size Bytes24 ≤ length out.old) × (counts.labels ≤ 1_024) }
    ensures { out.new ≡ sets out.old at (trailer_bytes Bytes24 counts) }
{
    let distance = distance_back(Form::Bytes24, counts.labels) as u32;
    let numbers = [
        counts.labels,
        counts.training,
        counts.test,
        counts.dark,
        counts.dark_test,
        distance,
    ];
    endian::write_words(out, at, &numbers);
}
