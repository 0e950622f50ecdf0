// Why a call declines: one case for each row of document 01's table, with the place where the row has one.
#![tactic(auto)]

ghost use Rattle.std.specs.Prelude.{◌≡◌};
ghost use Rattle.refusal.specs.Number.{number_of, place_of};

// What is wrong, and where: of a list a point's place in it, of a picture a byte's.
#[derive(Clone, Copy, Debug, PartialEq, Eq)]
pub enum Refusal {
    OddLength,
    TooManyPoints,
    OutOfRange(usize),
    Repeated(usize),
    OrderedTooSmall,
    CornersTooSmall,
    MissingTooSmall,
    NoCornerList,
    Strays(usize),
    Misplaced(usize),
    TooManyResult,
    PointsTooSmall,
    PictureTooLong,
    NoP1,
    BadHeader(usize),
    BadPixel(usize),
    PixelsEndEarly(usize),
    BytesAfterPixels(usize),
}

// The length of the longest picture: the place of the first byte too many.
pub const LONGEST: usize = 65536;

impl Refusal {
    // Its number in the table.
    pub fn number(self) -> u32
        ensures { result ≡ number_of self }
    {
        match self {
            Refusal::OddLength => 1,
            Refusal::TooManyPoints => 2,
            Refusal::OutOfRange(_) => 3,
            Refusal::Repeated(_) => 4,
            Refusal::OrderedTooSmall => 5,
            Refusal::CornersTooSmall => 6,
            Refusal::MissingTooSmall => 7,
            Refusal::NoCornerList => 8,
            Refusal::Strays(_) => 9,
            Refusal::Misplaced(_) => 10,
            Refusal::TooManyResult => 11,
            Refusal::PointsTooSmall => 12,
            Refusal::PictureTooLong => 20,
            Refusal::NoP1 => 21,
            Refusal::BadHeader(_) => 22,
            Refusal::BadPixel(_) => 23,
            Refusal::PixelsEndEarly(_) => 24,
            Refusal::BytesAfterPixels(_) => 25,
        }
    }

    // Its place; 0 where the call as a whole is at fault.
    pub fn place(self) -> usize
        ensures { result ≡ place_of self }
    {
        match self {
            Refusal::OutOfRange(place)
            | Refusal::Repeated(place)
            | Refusal::Strays(place)
            | Refusal::Misplaced(place)
            | Refusal::BadHeader(place)
            | Refusal::BadPixel(place)
            | Refusal::PixelsEndEarly(place)
            | Refusal::BytesAfterPixels(place) => place,
            Refusal::PictureTooLong => LONGEST,
            _ => 0,
        }
    }
}
