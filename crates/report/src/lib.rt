// Verdict: is a grain convex, and the first missing point if it is not. Report: all missing points. Both read on where Hull has written.
#![tactic(auto)]

ghost use Rattle.std.specs.Prelude.{◌≡◌};
ghost use Rattle.report.specs.Answer.{judged_of, reported_of, verdict_by as verdict_by_of, first_in};
ghost use Rattle.report.specs.Report.{VerdictPromise, ReportPromise};

use hull::Counts;
use lattice::Point;
use refusal::Refusal;

// What Verdict finds of a grain: it is convex exactly if it has no first missing point.
#[derive(Clone, Copy)]
pub struct Judgement {
    pub counts: Counts,
    pub first_missing: Option<Point>,
}

// What Report finds of a grain: how many missing points it has, too.
#[derive(Clone, Copy)]
pub struct Findings {
    pub counts: Counts,
    pub missing: usize,
    pub first_missing: Option<Point>,
}

// The verdicts as C has them. A declined call has neither yes nor no.
pub const NO: u32 = 0;

pub const YES: u32 = 1;

pub const NEITHER: u32 = 2;

// Verdict's answer as document 01 numbers it and as C has it: number and place, 0 and 0 if accepted, how many points and corners there are,
// the verdict, and the first missing point, (0, 0) where there is none.
#[repr(C)]
#[derive(Clone, Copy)]
pub struct Judged {
    pub number: u32,
    pub place: usize,
    pub points: usize,
    pub corners: usize,
    pub verdict: u32,
    pub x: i32,
    pub y: i32,
}

impl From<Result<Judgement, Refusal>> for Judged {
    ghost from_gives = { λ answer judged. judged ≡ judged_of answer };

    fn from(answer: Result<Judgement, Refusal>) -> Judged {
        match answer {
            Ok(judgement) => {
                let first = judgement.first_missing.unwrap_or(ORIGIN);
                Judged {
                    number: 0,
                    place: 0,
                    points: judgement.counts.points,
                    corners: judgement.counts.corners,
                    verdict: verdict_by(judgement.first_missing),
                    x: first.x,
                    y: first.y,
                }
            }
            Err(refusal) => Judged {
                number: refusal.number(),
                place: refusal.place(),
                points: 0,
                corners: 0,
                verdict: NEITHER,
                x: 0,
                y: 0,
            },
        }
    }
}

// Report's answer in the same way, and how many missing points there are.
#[repr(C)]
#[derive(Clone, Copy)]
pub struct Reported {
    pub number: u32,
    pub place: usize,
    pub points: usize,
    pub corners: usize,
    pub missing: usize,
    pub verdict: u32,
    pub x: i32,
    pub y: i32,
}

impl From<Result<Findings, Refusal>> for Reported {
    ghost from_gives = { λ answer reported. reported ≡ reported_of answer };

    fn from(answer: Result<Findings, Refusal>) -> Reported {
        match answer {
            Ok(findings) => {
                let first = findings.first_missing.unwrap_or(ORIGIN);
                Reported {
                    number: 0,
                    place: 0,
                    points: findings.counts.points,
                    corners: findings.counts.corners,
                    missing: findings.missing,
                    verdict: verdict_by(findings.first_missing),
                    x: first.x,
                    y: first.y,
                }
            }
            Err(refusal) => Reported {
                number: refusal.number(),
                place: refusal.place(),
                points: 0,
                corners: 0,
                missing: 0,
                verdict: NEITHER,
                x: 0,
                y: 0,
            },
        }
    }
}

// What an accepted answer shows for the first missing point where there is none.
const ORIGIN: Point = Point { x: 0, y: 0 };

// Yes or no, by the first missing point.
fn verdict_by(first_missing: Option<Point>) -> u32
    ensures { result ≡ verdict_by_of first_missing }
{
    match first_missing {
        Some(_) => NO,
        None => YES,
    }
}

// The first point of a list, if it has one.
fn first_of(list: &[i32]) -> Option<Point>
    ensures { result ≡ first_in list.now }
{
    match list {
        [x, y, ..] => Some(Point { x: *x, y: *y }),
        _ => None,
    }
}

// Hull, and the first missing point, if there is one.
pub fn verdict(list: &[i32], ordered: &mut [i32], corners: &mut [i32]) -> Result<Judgement, Refusal>
    ensures { VerdictPromise list.now ordered.old corners.old (judged_of result) ordered.new corners.new }
{
    let counts = hull::hull(list, ordered, corners)?;
    let first = walk::first(
        &corners[..2 * counts.corners],
        &ordered[..2 * counts.points],
    );
    Ok(Judgement {
        counts,
        first_missing: first.map(packed::unpacked),
    })
}

// Verdict, and all missing points at the front of their room. Hull counts them before any list is written.
pub fn report(
    list: &[i32],
    ordered: &mut [i32],
    corners: &mut [i32],
    missing: &mut [i32],
) -> Result<Findings, Refusal>
    ensures { ReportPromise list.now ordered.old corners.old missing.old (reported_of result) ordered.new corners.new missing.new }
{
    let counts = hull::within(list, ordered, corners, missing.len() / 2)?;
    let written = walk::write(
        &corners[..2 * counts.corners],
        &ordered[..2 * counts.points],
        missing,
    );
    Ok(Findings {
        counts,
        missing: written,
        first_missing: first_of(&missing[..2 * written]),
    })
}
