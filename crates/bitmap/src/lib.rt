// Plain bitmaps: the bytes of a picture, checked, and its black pixels as points.
#![tactic(auto)]

ghost use Rattle.std.specs.Prelude.{◌≡◌};
ghost use Rattle.bitmap.specs.Picture.{picture_of, PicturePromise};

use header::Header;
use refusal::Refusal;

// The longest file.
pub use refusal::LONGEST;

// The numbers that the list has room for.
pub const ROOM: usize = 8192;

// What an accepted picture holds: how many black pixels; width and height.
#[derive(Clone, Copy)]
pub struct Image {
    pub points: usize,
    pub width: usize,
    pub height: usize,
}

// What C is told: number and place, 0 and 0 if accepted; how many black pixels; width and height.
#[repr(C)]
#[derive(Clone, Copy)]
pub struct Picture {
    pub number: u32,
    pub place: usize,
    pub points: usize,
    pub width: usize,
    pub height: usize,
}

impl From<Result<Image, Refusal>> for Picture {
    ghost from_gives = { λ r p. p ≡ picture_of r };

    fn from(answer: Result<Image, Refusal>) -> Picture {
        match answer {
            Ok(image) => Picture {
                number: 0,
                place: 0,
                points: image.points,
                width: image.width,
                height: image.height,
            },
            Err(refusal) => Picture {
                number: refusal.number(),
                place: refusal.place(),
                points: 0,
                width: 0,
                height: 0,
            },
        }
    }
}

// A plain bitmap's black pixels, written to the front of the list in row order; or why it is declined.
pub fn read(bytes: &[u8], list: &mut [i32; ROOM]) -> Result<Image, Refusal>
    ensures { PicturePromise bytes.now list.old (picture_of result) list.new }
{
    if LONGEST < bytes.len() {
        return Err(Refusal::PictureTooLong);
    }
    if !bytes.starts_with(b"P1") {
        return Err(Refusal::NoP1);
    }
    let Header { width, height, at } = header::check(bytes)?;
    let pixels = width * height;
    let points = plain::check(bytes, at, pixels)?;
    if packed::MOST < points {
        return Err(Refusal::TooManyPoints);
    }
    black::write(bytes, at, width, pixels, list);
    Ok(Image {
        points,
        width,
        height,
    })
}
