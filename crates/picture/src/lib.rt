// The answer to a picture: its bytes read, its grain reported, the report or a refusal written as text.
#![tactic(auto)]

ghost use Rattle.lattice.specs.Point.{points};
ghost use Rattle.rows.specs.Row.{Sound};
ghost use Rattle.picture.specs.Response.{Reports, Refuses, Writes, ResponsePromise};

use refusal::Refusal;

// "It has room for 8,192 missing points."
const MOST_MISSING: usize = 8192;

// The line for a refusal.
fn refuse(refusal: Refusal, out: &mut [u8; csv_text::ROOM]) -> usize
    ensures { Writes (Refuses refusal) out.old result out.new }
{
    csv_text::refused(refusal.number(), refusal.place(), out)
}

// The report of a picture's points, or why there is none.
fn report_points(list: &[i32], out: &mut [u8; csv_text::ROOM]) -> usize
    requires { Sound list.now }
    ensures { Writes (Reports (points list.now)) out.old result out.new }
{
    let mut ordered = [0i32; bitmap::ROOM];
    let mut corners = [0i32; bitmap::ROOM];
    let mut missing = [0i32; 2 * MOST_MISSING];
    match report::report(list, &mut ordered, &mut corners, &mut missing) {
        Ok(findings) => csv_text::write(
            &corners[..2 * findings.counts.corners],
            &missing[..2 * findings.missing],
            findings.counts.points,
            out,
        ),
        Err(refusal) => refuse(refusal, out),
    }
}

// All that the report program writes for the bytes of a picture, at the front of `out`, and how many bytes that are.
pub fn respond(bytes: &[u8], out: &mut [u8; csv_text::ROOM]) -> usize
    ensures { ResponsePromise bytes.now out.old result out.new }
{
    let mut list = [0i32; bitmap::ROOM];
    match bitmap::read(bytes, &mut list) {
        Ok(image) => report_points(&list[..2 * image.points], out),
        Err(declined) => refuse(declined, out),
    }
}
