// The outcomes of all entries of the library.
ghost use Rattle.std.specs.Prelude.{◌≡◌};
ghost use Rattle.field.specs.Outcomes.{refusal_number, refusal_second, number, second, packed};

// A case for each refusal of "Why a call is turned down", in its order. No case has the number 8: "Refusal 8 no longer occurs" (T-01).
#[derive(Clone, Copy, PartialEq, Eq)]
pub enum Refusal {
    BadCurve,
    BadOrder,
    BadLength,
    // the lowest index of a bad value
    BadValue(u16),
    BadRoom,
    BadPlace,
    BadSymbol,
    NoMessage,
    // the r of Q^r messages that fit
    Several(u16),
    // request T-03: numbers 11, no codeword within the radius, and 12, no radius at this order
    NoneNear,
    NoRadius,
    // request T-06: number 13
    InverseOfZero,
    // request T-09: number 14, a work slice of another length
    BadWork,
    // request T-10: numbers 15, places that aren't k ascending ones below n, and 16, places that don't fix the codeword
    BadPlaces,
    NoInformationSet,
    // request T-11: number 17, a strap series that is neither 1 nor 2, tested after 1
    BadSeries,
    // request T-12: number 18, a list of columns that is empty, doesn't ascend or holds no symbol of the field, tested after 1
    BadColumns,
    // request T-13: number 19, an order below 2g − 1, tested after 2
    LowOrder,
}

// What a call answers besides what it writes: nothing, or why it was turned down.
pub type Outcome = Result<(), Refusal>;

// kept: numbers, and by functions: they are what C gets and what the papers name (the C interface).
impl Refusal {
    pub fn number(self) -> u8
        ensures { result ≡ refusal_number self }
    {
        match self {
            Refusal::BadCurve => 1,
            Refusal::BadOrder => 2,
            Refusal::BadLength => 3,
            Refusal::BadValue(_) => 4,
            Refusal::BadRoom => 5,
            Refusal::BadPlace => 6,
            Refusal::BadSymbol => 7,
            Refusal::NoMessage => 9,
            Refusal::Several(_) => 10,
            Refusal::NoneNear => 11,
            Refusal::NoRadius => 12,
            Refusal::InverseOfZero => 13,
            Refusal::BadWork => 14,
            Refusal::BadPlaces => 15,
            Refusal::NoInformationSet => 16,
            Refusal::BadSeries => 17,
            Refusal::BadColumns => 18,
            Refusal::LowOrder => 19,
        }
    }

    // The second number.
    pub fn second(self) -> u16
        ensures { result ≡ refusal_second self }
    {
        match self {
            Refusal::BadValue(index) => index,
            Refusal::Several(r) => r,
            _ => 0,
        }
    }
}

// The refusal number, 0 for a call that isn't refused.
pub fn number(o: Outcome) -> u8
    ensures { result ≡ number o }
{
    match o {
        Ok(()) => 0,
        Err(refusal) => refusal.number(),
    }
}

// The second number.
pub fn second(o: Outcome) -> u16
    ensures { result ≡ second o }
{
    match o {
        Ok(()) => 0,
        Err(refusal) => refusal.second(),
    }
}

// Both numbers in one, as C gets them.
pub fn packed(o: Outcome) -> u32
    ensures { result ≡ packed o }
{
    (number(o) as u32) * 65536 + (second(o) as u32)
}
