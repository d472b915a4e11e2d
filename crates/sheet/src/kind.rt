// The kind of a line, which its first field names.
ghost use Rattle.std.specs.Prelude.{◌≡◌, ◌+◌, Some};
ghost use Rattle.std.specs.Option.{ok_or};
ghost use Rattle.sheet.specs.Reading.{letter, kind_of, count_fits, letter_of};
ghost use Rattle.sheet.specs.declared.fault.LineFault.TheVariants as lines;

use crate::fault::LineFault;
use hall::vehicle::MOST_STEPS;

// What a line is about: a vehicle that enters, a step that begins or finishes, or minutes that pass.
#[derive(Clone, Copy, Debug, PartialEq, Eq)]
pub enum Kind {
    Vehicle,
    Begin,
    Finish,
    Pass,
}

// The kind that a field names by its one byte, which by a rule of the project is taken alone, as a char.
impl TryFrom<&[u8]> for Kind {
    type Error = LineFault;

    ghost try_from_gives = { λ field r. r ≡ ok_or (kind_of field.now) lines.KindUnknown };

    fn try_from(field: &[u8]) -> Result<Kind, LineFault> {
        let [byte] = field else {
            return Err(LineFault::KindUnknown);
        };
        match char::from(*byte) {
            'V' => Ok(Kind::Vehicle),
            'B' => Ok(Kind::Begin),
            'F' => Ok(Kind::Finish),
            'T' => Ok(Kind::Pass),
            _ => Err(LineFault::KindUnknown),
        }
    }
}

impl Kind {
    // The letter that names the kind: as a discriminant it would be read as a number.
    pub fn letter(self) -> u8
        ensures value { result ≡ letter_of self }
        ensures names { letter result ≡ Some self }
    {
        match self {
            Kind::Vehicle => b'V',
            Kind::Begin => b'B',
            Kind::Finish => b'F',
            Kind::Pass => b'T',
        }
    }

    // Whether a line of this kind may have `tabs` tabs, and so one field more: a vehicle has 1 to 8 pairs of numbers,
    // the others have one number.
    pub(crate) fn fits(self, tabs: usize) -> bool
        ensures { result ≡ count_fits self (tabs + 1) }
    {
        match self {
            Kind::Vehicle => (2..=2 * MOST_STEPS).contains(&tabs) && tabs % 2 == 0,
            _ => tabs == 1,
        }
    }
}
