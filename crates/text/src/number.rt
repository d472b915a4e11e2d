// Numbers as a sheet writes them: 1 to 7 digits without a leading zero, or 0 alone.
ghost use Rattle.std.specs.Prelude.{◌≡◌, ◌^◌, ◌<◌, IfOk};
ghost use Rattle.text.specs.Number.{digit_of, number_shape, number_of, minutes_of, ReadsBack};

// The most digits that a number has.
const MAX_DIGITS: usize = 7;

// Why a field is no number.
#[derive(Clone, Copy, Debug, PartialEq, Eq)]
pub enum NumberFault {
    Malformed,
}

// Whether `field` has as many bytes as a number, the first no zero unless it stands alone.
fn has_shape(field: &[u8]) -> bool
    ensures { result ≡ number_shape field.now }
{
    field.len() <= MAX_DIGITS && !matches!(field, [] | [b'0', _, ..])
}

// The value of a digit.
fn digit(b: u8) -> Result<u32, NumberFault>
    ensures { result ≡ digit_of b }
{
    char::from(b).to_digit(10).ok_or(NumberFault::Malformed)
}

// The number that `field` writes; what is printed of a number that is small enough reads back as it.
#[tactic(auto, using(crate::proofs::Numbers::reads_back))]
pub fn read_number(field: &[u8]) -> Result<u32, NumberFault>
    ensures value { result ≡ number_of field.now }
    ensures small { IfOk result (λ n. n < 10 ^ 7) }
    ensures reads_back { ReadsBack }
{
    if !has_shape(field) {
        return Err(NumberFault::Malformed);
    }
    // `str::parse` takes a `+` before the digits, and was ten times as slow here; of `try_fold` the check proves no clause.
    let mut n = 0;
    for b in field {
        n = n * 10 + digit(*b)?;
    }
    Ok(n)
}

// The minutes that `field` writes: a rule of their own, which is that of every number as yet.
#[tactic(auto, unfolding(crate::specs::Number::minutes_of))]
pub fn read_minutes(field: &[u8]) -> Result<u32, NumberFault>
    ensures { result ≡ minutes_of field.now }
{
    read_number(field)
}
