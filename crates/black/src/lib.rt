// The black pixels of a plain bitmap with no fault, as points.
#![tactic(auto)]

ghost use Rattle.std.specs.Prelude.{◌≡◌, ◌≤◌};
ghost use Rattle.lattice.specs.Room.{holding};
ghost use Rattle.netpbm.specs.Raster.{black_in};
ghost use Rattle.netpbm.specs.Steps.{Passes, Writable};
ghost use Rattle.plain.specs.Plain.{plain_at};
ghost use Rattle.black.specs.Row.{Begun, RowOf};

use plain::{PART, Pixels, Tally};

// The pixels of a picture with no fault, and a place up to which no part is worth a look.
#[derive(Drop)]
struct Scan<'a> {
    pixels: Pixels<'a>,
    until: usize,
}

impl Scan<'_> {
    // Passes white pixels by parts, up to one with a black pixel, which `until` spares a second look: how many.
    fn pass_white(&mut self) -> usize
        ensures same { self.new.pixels.bytes.now ≡ self.old.pixels.bytes.now }
        ensures passes { Passes (plain_at self.old.pixels.bytes.now) self.old.pixels.at result self.new.pixels.at }
    {
        if self.pixels.at < self.until {
            return 0;
        }
        let mut white = 0;
        self.until = self.pixels.bytes.len();
        while let Some(part) = self.pixels.part() {
            let tally = Tally::of(part);
            if 0 < tally.black {
                self.until = self.pixels.at + PART;
                break;
            }
            white += tally.white;
            self.pixels.at += PART;
        }
        white
    }
}

// A row and the number of its first pixel.
#[derive(Drop)]
struct Row {
    y: usize,
    first: usize,
}

impl Row {
    // The row of pixel k, from that of an earlier pixel: a division only where that row ends before k.
    fn of(self, k: usize, width: usize) -> Self
        requires { Begun width k self × (1 ≤ width) }
        ensures { RowOf width k result }
    {
        if k - self.first < width {
            return self;
        }
        let y = k / width;
        Row {
            y,
            first: y * width,
        }
    }
}

// The black pixels as points, at the front of the list.
pub fn write(bytes: &[u8], at: usize, width: usize, pixels: usize, list: &mut [i32])
    requires { Writable (plain_at bytes.now pixels at) width pixels list.old }
    ensures { list.new ≡ holding (black_in width (plain_at bytes.now pixels at)) list.old }
{
    let mut scan = Scan {
        pixels: Pixels { bytes, at },
        until: at,
    };
    let mut row = Row { y: 0, first: 0 };
    let mut n = 0;
    let mut k = 0;
    // No `for`: k also passes the white pixels that `pass_white` counts.
    while k < pixels {
        let black = scan.pixels.next().unwrap();
        if black {
            row = row.of(k, width);
            netpbm::put(list, n, k - row.first, row.y);
            n += 1;
            k += 1;
        } else {
            k += 1;
            k += scan.pass_white();
        }
    }
}
