// Each curve's fixed numbers, by type and by q.
// kept: no trait over the three types, since each constant that a clause of a generic function names would stand twice in each `impl`.
ghost use Rattle.std.specs.Prelude.{◌≡◌};
ghost use Rattle.field.specs.Curve.{is_curve, is_short, IsCurve, curve_of, named_of};

// The curve y^2 + y = x^3.
#[derive(Clone, Copy)]
pub struct Small;

impl Small {
    pub const Q: u8 = 4;

    pub const N: usize = 8;

    pub const GENUS: usize = 1;

    pub const WEIGHT_X: usize = 2;

    pub const WEIGHT_Y: usize = 3;
}

// The curve y^4 + y = x^5.
#[derive(Clone, Copy)]
pub struct Large;

impl Large {
    pub const Q: u8 = 16;

    pub const N: usize = 64;

    pub const GENUS: usize = 6;

    pub const WEIGHT_X: usize = 4;

    pub const WEIGHT_Y: usize = 5;
}

// The curve y^8 + y = x^9, that of long blocks.
#[derive(Clone, Copy)]
pub struct Long;

impl Long {
    pub const Q: u8 = 64;

    pub const N: usize = 512;

    pub const GENUS: usize = 28;

    pub const WEIGHT_X: usize = 8;

    pub const WEIGHT_Y: usize = 9;
}

// The numbers of the curve q: its symbols are Q in number, its points n.
#[derive(Clone, Copy)]
pub struct Curve {
    pub q: u8,
    pub symbols: u8,
    pub points: usize,
    pub genus: usize,
    pub weight_x: usize,
    pub weight_y: usize,
}

impl Curve {
    // The curve of a number that is known to be a curve's.
    pub fn at(q: u8) -> Curve
        requires { IsCurve q }
        ensures { result ≡ curve_of q }
    {
        if q == 4 {
            Curve {
                q,
                symbols: Large::Q,
                points: Large::N,
                genus: Large::GENUS,
                weight_x: Large::WEIGHT_X,
                weight_y: Large::WEIGHT_Y,
            }
        } else if q == 2 {
            Curve {
                q,
                symbols: Small::Q,
                points: Small::N,
                genus: Small::GENUS,
                weight_x: Small::WEIGHT_X,
                weight_y: Small::WEIGHT_Y,
            }
        } else {
            Curve {
                q,
                symbols: Long::Q,
                points: Long::N,
                genus: Long::GENUS,
                weight_x: Long::WEIGHT_X,
                weight_y: Long::WEIGHT_Y,
            }
        }
    }

    // The curve of any number.
    pub fn of(q: u8) -> Option<Curve>
        ensures { result ≡ named_of q }
    {
        match q {
            2 | 4 | 8 => Some(Curve::at(q)),
            _ => None,
        }
    }
}

// Whether q is the number of a curve.
pub fn is_curve(q: u8) -> bool
    ensures { result ≡ is_curve q }
{
    match q {
        2 | 4 | 8 => true,
        _ => false,
    }
}

// Whether q is the number of a curve of short blocks.
// kept: what takes such a number asks `IsShort q`, or `IsCurve q` of any curve, and not a type of such numbers: its clauses name q again
// and again, and `curve.q` each time is longer than the one fact.
pub fn is_short(q: u8) -> bool
    ensures { result ≡ is_short q }
{
    match q {
        2 | 4 => true,
        _ => false,
    }
}
