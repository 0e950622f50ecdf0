// The calls for other languages: include/grain.h declares them for C. Each list is a pointer and a length, each answer a struct as C lays
// it out, with document 01's number and place of a refusal. Each call promises what the call of the same name promises, and asks for nothing.
#![tactic(auto)]

ghost use Rattle.std.specs.Prelude.{◌≡◌};
ghost use Rattle.order.specs.Order.{OrderPromise};
ghost use Rattle.rows.specs.Row.{RowEndsPromise};
ghost use Rattle.hull.specs.Hull.{HullPromise};
ghost use Rattle.report.specs.Report.{VerdictPromise, ReportPromise};
ghost use Rattle.rebuild.specs.Rebuild.{RebuildPromise};
ghost use Rattle.bitmap.specs.Picture.{PicturePromise};
ghost use Rattle.csv_text.specs.Text.{report_text, refused_text};
ghost use Rattle.csv_text.specs.Written.{WritePromise};
ghost use Rattle.picture.specs.Response.{ResponsePromise};
ghost use Rattle.grain_c.specs.Block.{block_of, FiguresBlockPromise};

use bitmap::Picture;
use figures::Figured;
use hull::Hulled;
use order::Ordered;
use rebuild::Rebuilt;
use report::{Judged, Reported};
use rows::Ends;

// The three cases of Figures in one struct: a refusal has its number; of the others one is given.
#[repr(C)]
#[derive(Clone, Copy)]
pub struct Figures {
    pub number: u32,
    pub given: u32,
    pub place: usize,
    pub x: f64,
    pub y: f64,
    pub solidity: f64,
}

impl From<Figured> for Figures {
    ghost from_gives = { λ answer block. block ≡ block_of answer };

    fn from(answer: Figured) -> Figures {
        match answer {
            Figured::Refused { number, place } => Figures {
                number,
                given: 0,
                place,
                x: 0.0,
                y: 0.0,
                solidity: 0.0,
            },
            Figured::None => Figures {
                number: 0,
                given: 0,
                place: 0,
                x: 0.0,
                y: 0.0,
                solidity: 0.0,
            },
            Figured::Given { centroid, solidity } => Figures {
                number: 0,
                given: 1,
                place: 0,
                x: centroid.x,
                y: centroid.y,
                solidity,
            },
        }
    }
}

#[unsafe(no_mangle)]
pub extern "C" fn grain_order(list: &[i32], room: &mut [i32]) -> Ordered
    ensures { OrderPromise list.now room.old result room.new }
{
    order::order(list, room).into()
}

// Row hands back a part of the list; for other languages its two ends are what tells it.
#[unsafe(no_mangle)]
pub extern "C" fn grain_row_ends(list: &[i32], y: i32) -> Ends
    ensures { RowEndsPromise list.now y result }
{
    rows::row_ends(list, y)
}

#[unsafe(no_mangle)]
pub extern "C" fn grain_hull(list: &[i32], ordered: &mut [i32], corners: &mut [i32]) -> Hulled
    ensures { HullPromise list.now ordered.old corners.old result ordered.new corners.new }
{
    hull::hull(list, ordered, corners).into()
}

#[unsafe(no_mangle)]
pub extern "C" fn grain_verdict(list: &[i32], ordered: &mut [i32], corners: &mut [i32]) -> Judged
    ensures { VerdictPromise list.now ordered.old corners.old result ordered.new corners.new }
{
    report::verdict(list, ordered, corners).into()
}

#[unsafe(no_mangle)]
pub extern "C" fn grain_report(
    list: &[i32],
    ordered: &mut [i32],
    corners: &mut [i32],
    missing: &mut [i32],
) -> Reported
    ensures { ReportPromise list.now ordered.old corners.old missing.old result ordered.new corners.new missing.new }
{
    report::report(list, ordered, corners, missing).into()
}

#[unsafe(no_mangle)]
pub extern "C" fn grain_rebuild(corners: &[i32], missing: &[i32], room: &mut [i32]) -> Rebuilt
    ensures { RebuildPromise corners.now missing.now room.old result room.new }
{
    rebuild::rebuild(corners, missing, room).into()
}

#[unsafe(no_mangle)]
pub extern "C" fn grain_figures(list: &[i32], ordered: &mut [i32], corners: &mut [i32]) -> Figures
    ensures { FiguresBlockPromise list.now ordered.old corners.old result ordered.new corners.new }
{
    figures::figures(list, ordered, corners).into()
}

#[unsafe(no_mangle)]
pub extern "C" fn grain_read_picture(bytes: &[u8], list: &mut [i32; bitmap::ROOM]) -> Picture
    ensures { PicturePromise bytes.now list.old result list.new }
{
    bitmap::read(bytes, list).into()
}

#[unsafe(no_mangle)]
pub extern "C" fn grain_write_report(
    corners: &[i32],
    missing: &[i32],
    points: usize,
    out: &mut [u8],
) -> usize
    ensures { WritePromise (report_text corners.now missing.now points) out.old result out.new }
{
    csv_text::write(corners, missing, points, out)
}

#[unsafe(no_mangle)]
pub extern "C" fn grain_write_refused(number: u32, place: usize, out: &mut [u8]) -> usize
    ensures { WritePromise (refused_text number place) out.old result out.new }
{
    csv_text::refused(number, place, out)
}

// All that the report program writes for a picture.
#[unsafe(no_mangle)]
pub extern "C" fn grain_respond(bytes: &[u8], out: &mut [u8; csv_text::ROOM]) -> usize
    ensures { ResponsePromise bytes.now out.old result out.new }
{
    picture::respond(bytes, out)
}
