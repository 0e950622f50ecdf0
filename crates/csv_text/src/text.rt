// A text on its way into a room that may be too small for it.
ghost use Rattle.std.specs.Prelude.{List, ℕ, ◌≤◌, length};
ghost use Rattle.lattice.specs.Point.{points};
ghost use Rattle.csv_text.specs.Text.{natural, whole, line, point_lines};

// The first `at` bytes of the room hold what is put so far.
#[derive(Drop)]
pub(crate) struct Text<'a> {
    pub(crate) room: &'a mut [u8],
    pub(crate) at: usize,
    ghost within: { at ≤ length room.now },
}

// The room ends before the text does.
#[derive(Drop)]
pub(crate) struct Full;

// A number in decimal. It is not printed by std's `write!`: that promises the digits where it answers `Ok`, and promises `Ok` nowhere.
pub(crate) trait Decimal: Copy {
    ghost use Rattle.csv_text.specs.Written.{Puts};

    ghost digits: { Self → List ℕ };

    fn put_in(self, text: &mut Text<'_>) -> Result<(), Full>
        ensures { Puts text.old (digits self) result text.new };
}

impl Decimal for usize {
    ghost digits = { natural };

    fn put_in(self, text: &mut Text<'_>) -> Result<(), Full> {
        if self < 10 {
            text.put(&[b'0' + self as u8])
        } else {
            (self / 10).put_in(text)?;
            text.put(&[b'0' + (self % 10) as u8])
        }
    }
}

impl Decimal for i32 {
    ghost digits = { whole };

    fn put_in(self, text: &mut Text<'_>) -> Result<(), Full> {
        if self < 0 {
            text.put(b"-")?;
        }
        (self.unsigned_abs() as usize).put_in(text)
    }
}

impl Text<'_> {
    ghost use Rattle.csv_text.specs.Written.{Puts};

    // Bytes one after the other, as far as there is room for them. By `copy_from_slice` the archive for C would need `memmove` from outside.
    pub(crate) fn put(&mut self, bytes: &[u8]) -> Result<(), Full>
        ensures { Puts self.old bytes.now result self.new }
    {
        for b in bytes {
            if self.room.len() <= self.at {
                return Err(Full);
            }
            self.room[self.at] = *b;
            self.at += 1;
        }
        Ok(())
    }

    // A line of a kind and two numbers.
    pub(crate) fn line<N: Decimal>(&mut self, kind: &[u8], n: N, m: N) -> Result<(), Full>
        ensures { Puts self.old (line kind.now (N.digits n) (N.digits m)) result self.new }
    {
        self.put(kind)?;
        self.put(b",")?;
        n.put_in(self)?;
        self.put(b",")?;
        m.put_in(self)?;
        self.put(b"\r\n")
    }

    // A line for each point.
    pub(crate) fn point_lines(&mut self, kind: &[u8], list: &[i32]) -> Result<(), Full>
        ensures { Puts self.old (point_lines kind.now (points list.now)) result self.new }
    {
        let (pairs, _) = list.as_chunks::<2>();
        for &[x, y] in pairs {
            self.line(kind, x, y)?;
        }
        Ok(())
    }
}
