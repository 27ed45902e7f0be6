//! The lines in which a port mapper lists the names that it knows.

ghost use Rattle.std.specs.{Prelude.◌≡◌, Option.option_copied};
ghost use Rattle.dist_cluster.specs.Census.{before_digits, digits_at_end, name_in_line};

// How many digits stand at the end of a line.
fn count_digits(line: &[u8]) -> usize
    ensures { result ≡ digits_at_end line.now }
{
    line.iter()
        .rev()
        .take_while(|byte| byte.is_ascii_digit())
        .count()
}

// What stands before the digits at the end of a line.
fn before_digits(line: &[u8]) -> &[u8]
    ensures { result.now ≡ before_digits line.now }
{
    &line[..line.len().saturating_sub(count_digits(line))]
}

/// The name in a line `name NAME at port PORT` of the port mapper.
pub fn name_in_line(line: &[u8]) -> Option<&[u8]>
    ensures { option_copied result ≡ name_in_line line.now }
{
    let rest = line.strip_prefix(b"name ")?;
    before_digits(rest).strip_suffix(b" at port ")
}
