// The pixels of a plain bitmap: checked and counted, by parts up to the first fault, and there one by one.
#![tactic(auto)]

ghost use Rattle.std.specs.Prelude.{◌≡◌, ◌+◌, ◌^◌, ◌<◌, length, IfSome, OnErr};
ghost use Rattle.netpbm.specs.Steps.{counted};
ghost use Rattle.plain.specs.Plain.{plain_at};
ghost use Rattle.plain.specs.Steps.{Skips, Fetches, bad_byte, Tallied, IsPart, Leaves};

use refusal::Refusal;

// How many bytes are tallied at a time: so few that a byte holds each count, which lets the compiler count sixteen bytes at once.
pub const PART: usize = 64;

// How many bytes of a part are black pixels, white pixels, and neither a pixel nor white space.
#[derive(Clone, Copy)]
pub struct Tally {
    pub black: usize,
    pub white: usize,
    pub bad: usize,
}

impl Tally {
    // The bytes of a part, tallied.
    pub fn of(part: &[u8]) -> Self
        requires { length part.now < 256 }
        ensures { Tallied part.now result }
    {
        let mut black: u8 = 0;
        let mut white: u8 = 0;
        let mut bad: u8 = 0;
        for b in part {
            black += u8::from(*b == b'1');
            white += u8::from(*b == b'0');
            bad += u8::from(is_bad(*b));
        }
        Tally {
            black: usize::from(black),
            white: usize::from(white),
            bad: usize::from(bad),
        }
    }
}

// Neither white space nor a pixel.
fn is_bad(b: u8) -> bool
    ensures { result ≡ bad_byte b }
{
    !(netpbm::white_space(b) || matches!(b, b'0' | b'1'))
}

// The bytes of a file, whose pixels are read from a place on, which may be past the end.
#[derive(Drop)]
pub struct Pixels<'a> {
    pub bytes: &'a [u8],
    pub at: usize,
}

impl<'a> Pixels<'a> {
    // The place of the next byte that is no white space, or one past the end.
    fn behind_blanks(&self) -> usize
        ensures { Skips self.now.bytes.now self.now.at result }
    {
        // `position` over the rest of the bytes is slower: that slice is made anew for each pixel.
        let mut at = self.at;
        while self.bytes.get(at).is_some_and(|b| netpbm::white_space(*b)) {
            at += 1;
        }
        at
    }

    // The next pixel, behind white space: whether it is black. A fault leaves the place as it was.
    pub fn next(&mut self) -> Result<bool, Refusal>
        ensures same { self.new.bytes.now ≡ self.old.bytes.now }
        ensures fetches { Fetches (plain_at self.old.bytes.now) self.old.at result self.new.at }
        ensures stays { OnErr result (self.new.at ≡ self.old.at) }
    {
        let place = self.behind_blanks();
        let black = match self.bytes.get(place) {
            Some(b'1') => true,
            Some(b'0') => false,
            Some(_) => return Err(Refusal::BadPixel(place)),
            None => return Err(Refusal::PixelsEndEarly(place)),
        };
        self.at = place + 1;
        Ok(black)
    }

    // The next part, where a whole one is left.
    pub fn part(&self) -> Option<&'a [u8; PART]>
        ensures { IfSome result (λ p. IsPart self.now.bytes.now self.now.at p.now) }
    {
        self.bytes.get(self.at..)?.first_chunk()
    }

    // Passes parts with no fault, of so many pixels at most: how many are black, and how many pixels are left.
    fn pass_parts(&mut self, pixels: usize) -> (usize, usize)
        ensures same { self.new.bytes.now ≡ self.old.bytes.now }
        ensures leaves { Leaves (plain_at self.old.bytes.now) self.old.at pixels result.0 result.1 self.new.at }
    {
        let mut black = 0;
        let mut left = pixels;
        while let Some(part) = self.part() {
            let tally = Tally::of(part);
            let passed = tally.black + tally.white;
            if 0 < tally.bad || left < passed {
                break;
            }
            black += tally.black;
            left -= passed;
            self.at += PART;
        }
        (black, left)
    }

    // The pixels from here on to the end, one by one, checked and counted: how many are black, with those before them.
    fn count_each(mut self, pixels: usize, before: usize) -> Result<usize, Refusal>
        requires { before + pixels < 2 ^ 64 }
        ensures { result ≡ counted before (plain_at self.entry.bytes.now pixels self.entry.at) }
    {
        let mut black = before;
        for _ in 0..pixels {
            if self.next()? {
                black += 1;
            }
        }
        let end = self.behind_blanks();
        if end < self.bytes.len() {
            Err(Refusal::BytesAfterPixels(end))
        } else {
            Ok(black)
        }
    }
}

// The pixels from a place on, checked and counted: by parts up to the first fault or the end, and there one by one.
pub fn check(bytes: &[u8], at: usize, pixels: usize) -> Result<usize, Refusal>
    ensures { result ≡ counted 0 (plain_at bytes.now pixels at) }
{
    let mut rest = Pixels { bytes, at };
    let (black, left) = rest.pass_parts(pixels);
    rest.count_each(left, black)
}
