// CSV: the text of a report and of a refusal.
#![tactic(auto)]

ghost use Rattle.csv_text.specs.Text.{report_text, refused_text};
ghost use Rattle.csv_text.specs.Written.{WritePromise, Puts};

mod text;

use text::{Full, Text};

// A room that suffices for the report of a picture.
pub const ROOM: usize = 253979;

// A heading, the corners of a picture, its missing points, how many points it has and how many are missing.
fn report(corners: &[i32], missing: &[i32], points: usize, text: &mut Text<'_>) -> Result<(), Full>
    ensures { Puts text.old (report_text corners.now missing.now points) result text.new }
{
    text.put(b"kind,x,y\r\n")?;
    text.point_lines(b"corner", corners)?;
    text.point_lines(b"missing", missing)?;
    text.line(b"total", points, missing.len() / 2)
}

// The report of a picture. C's interface answers 0 for a text that does not fit, and so do these two.
pub fn write(corners: &[i32], missing: &[i32], points: usize, out: &mut [u8]) -> usize
    ensures { WritePromise (report_text corners.now missing.now points) out.old result out.new }
{
    let mut text = Text { room: out, at: 0 };
    match report(corners, missing, points, &mut text) {
        Ok(()) => text.at,
        Err(Full) => 0,
    }
}

// The line for a declined picture.
pub fn refused(number: u32, place: usize, out: &mut [u8]) -> usize
    ensures { WritePromise (refused_text number place) out.old result out.new }
{
    let mut text = Text { room: out, at: 0 };
    match text.line(b"refused", number as usize, place) {
        Ok(()) => text.at,
        Err(Full) => 0,
    }
}
