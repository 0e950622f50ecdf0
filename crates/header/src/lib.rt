// The header of a bitmap: width and height, and where the pixels begin.
#![tactic(auto)]

ghost use Rattle.std.specs.Prelude.{◌≡◌, ◌≤◌, length};
ghost use Rattle.header.specs.Header.{header_of};

use refusal::Refusal;

// The greatest width and height.
const GREATEST_SIZE: usize = 1024;

// What a header says: width and height, and the place behind it.
#[derive(Clone, Copy)]
pub struct Header {
    pub width: usize,
    pub height: usize,
    pub at: usize,
}

// The bytes of a file, read up to a place.
#[derive(Drop)]
struct Reader<'a> {
    bytes: &'a [u8],
    at: usize,
    ghost inside: { at ≤ length bytes.now },
}

impl Reader<'_> {
    ghost use Rattle.netpbm.specs.Space.{white_space};
    ghost use Rattle.header.specs.Header.{starts, behind};
    ghost use Rattle.header.specs.Steps.{comment_left, left, Leads, RunAt, Sized, Ended};

    // Passes what is left of a comment, up to its line end or the end of the file.
    fn pass_comment(&mut self)
        ensures { Leads (comment_left self.old) self.old self.new }
    {
        let rest = &self.bytes[self.at..];
        self.at += rest
            .iter()
            .position(|b| matches!(b, b'\n' | b'\r'))
            .unwrap_or(rest.len());
    }

    // Goes to the byte that is read next: a comment is read as its line end.
    fn settle(&mut self)
        ensures { Leads (left self.old) self.old self.new }
    {
        if self.bytes.get(self.at) == Some(&b'#') {
            self.at += 1;
            self.pass_comment();
        }
    }

    // Goes to the byte that is read next: whether it is white space.
    fn at_white(&mut self) -> bool
        ensures leads { Leads (left self.old) self.old self.new }
        ensures white { result ≡ starts white_space (left self.new) }
    {
        self.settle();
        self.bytes
            .get(self.at)
            .is_some_and(|b| netpbm::white_space(*b))
    }

    // Passes all white space that is read from here on.
    fn skip(&mut self)
        ensures { Leads (behind white_space (left self.old)) self.old self.new }
    {
        while self.at_white() {
            self.at += 1;
        }
    }

    // The size whose digits are read from here on, one above the greatest for any that is greater.
    fn digits(&mut self) -> usize
        ensures { RunAt self.old result self.new }
    {
        let mut size = 0;
        let rest = &self.bytes[self.at..];
        for b in rest {
            if !b.is_ascii_digit() {
                break;
            }
            size = (10 * size + usize::from(*b - b'0')).min(GREATEST_SIZE + 1);
            self.at += 1;
        }
        size
    }

    // White space and a size.
    fn size(&mut self) -> Result<usize, Refusal>
        ensures { Sized self.old result self.new }
    {
        if !self.at_white() {
            return Err(Refusal::BadHeader(self.at));
        }
        self.skip();
        let start = self.at;
        let size = self.digits();
        if (1..=GREATEST_SIZE).contains(&size) {
            Ok(size)
        } else {
            Err(Refusal::BadHeader(start))
        }
    }

    // One white space, which ends the header: the place behind it.
    fn end(mut self) -> Result<usize, Refusal>
        ensures { Ended self.entry result }
    {
        if self.at_white() {
            Ok(self.at + 1)
        } else {
            Err(Refusal::BadHeader(self.at))
        }
    }
}

// The header behind its two first bytes.
pub fn check(bytes: &[u8]) -> Result<Header, Refusal>
    requires { 2 ≤ length bytes.now }
    ensures { result ≡ header_of bytes.now }
{
    let mut reader = Reader { bytes, at: 2 };
    let width = reader.size()?;
    let height = reader.size()?;
    let at = reader.end()?;
    Ok(Header { width, height, at })
}
