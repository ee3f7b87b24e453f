// The statuses of the C interface that are no refusal's number alone, faults of an elements file and a number
// with a place; and, in specs/, how a call ends: include/yurdelmiz.h.
#![tactic(auto)]

ghost use Rattle.std.specs.Prelude.{◌≡◌, ◌≤◌};
ghost use Rattle.statuses.specs.Status.{status_at};
ghost use Rattle.statuses.specs.Faults.{fault_number, fault_place};

use elements_file::Fault;

// The numbers are the C interface's, and no conversion of the faults themselves.
pub fn fault_number(fault: Fault) -> u32
    ensures { result ≡ fault_number fault }
{
    match fault {
        Fault::Name => 101,
        Fault::Extra => 102,
        Fault::ControlByte => 103,
        Fault::DecimalPoint => 104,
        Fault::NotWhole => 105,
        Fault::TooLarge => 106,
        Fault::Unended => 107,
        Fault::Missing => 108,
        Fault::TooLong => 109,
    }
}

// A file of 65,535 bytes has at most 65,536 lines, and 12 elements.
pub fn fault_place(line: usize, element: u32) -> u32
    requires { (line ≤ 65_536) × (element ≤ 12) }
    ensures { result ≡ fault_place line element }
{
    line as u32 + 0x100_0000 * element
}

// A number, and a place above it.
pub fn status_at(number: u32, place: u32) -> u64
    ensures { result ≡ status_at number place }
{
    number as u64 + 0x1_0000_0000 * (place as u64)
}
