// What is asked of each line whole.
ghost use Rattle.std.specs.Prelude.{◌≡◌};
ghost use Rattle.two_line.specs.Lines.{begins, weight, checksum_holds};

// 69 bytes, and the line's number first.
pub(crate) fn begins(number: u8, line: &[u8]) -> bool
    ensures { result ≡ begins number line.now }
{
    line.len() == 69 && two_line_fields::byte(line, 1) == number
}

fn weight(byte: u8) -> u64
    ensures { result ≡ weight byte }
{
    if byte == b'-' {
        return 1;
    }
    digit::value(byte)
}

// Whether column 69 has the checksum of those ahead of it.
pub(crate) fn checksum_holds(line: &[u8]) -> bool
    ensures { result ≡ checksum_holds line.now }
{
    let sum: u64 = line.iter().take(68).map(|byte| weight(*byte)).sum();
    u64::from(two_line_fields::byte(line, 69)) == 48 + sum % 10
}
