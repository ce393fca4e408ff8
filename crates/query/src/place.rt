//! A place of a triple pattern or of a comparison: a variable or a term.
ghost use Rattle.std.specs.Prelude.{◌≡◌, true};
ghost use Rattle.query.specs.Codes.{code_of, place_from};
ghost use Rattle.query.specs.Limits.{lawful_place};

/// The highest number of a variable.
pub const MOST_VARIABLE: u32 = 15;

/// The highest number of a term in a query.
pub const MOST_TERM: u32 = 1_000_000;

/// A place: variable 0 to 15, or term 1 to 1,000,000.
#[derive(Clone, Copy)]
pub enum Place {
    Variable(u32),
    Term(u32),
}

impl Place {
    // Kept as a method: `From` may ask nothing of the place, and only a lawful one has a code that fits.
    /// The code that stands for the place: odd for a variable, even for a term.
    pub(crate) fn code(self) -> u32
        requires { lawful_place self ≡ true }
        ensures { result ≡ code_of self }
    {
        match self {
            Place::Variable(v) => 2 * v + 1,
            Place::Term(t) => 2 * t,
        }
    }

    // Kept as an option, as `char::from_u32` is: all codes without a place are refused alike.
    /// The lawful place that has the code.
    pub(crate) fn from_code(code: u32) -> Option<Place>
        ensures { result ≡ place_from code }
    {
        let number = code / 2;
        match (code % 2, number) {
            (1, ..=MOST_VARIABLE) => Some(Place::Variable(number)),
            (0, 1..=MOST_TERM) => Some(Place::Term(number)),
            _ => None,
        }
    }
}
