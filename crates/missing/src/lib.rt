// The missing points of Rebuild: the first that does not follow the one before (refusal 9), and the first that is outside the corners' hull or is
// a corner (refusal 10).
#![tactic(auto)]

ghost use Rattle.std.specs.Prelude.{◌≡◌, true, ◌*◌, ◌≤◌, ◌<◌, length, MatchOption};
ghost use Rattle.lattice.specs.Point.{InRange, points, In, All, Pairs, Before};
ghost use Rattle.packed.specs.Packed.{Tells};
ghost use Rattle.packed.specs.Corners.{keys_of, Outline};
ghost use Rattle.stretch.specs.Stretch.{Peak};
ghost use Rattle.range.specs.First.{Found};
ghost use Rattle.missing.specs.Missing.{FirstFrom, FirstStray, FirstMisplaced, MisplacedAt, Apart, InOneRow, EndMisplaced};

use stretch::{Rows, Stretch};

// A missing list that is shorter is a short one: the rows whose ends have to be looked for among the corners are few.
const SHORT: usize = 1024;

// Whether each missing point follows the one before. Without a branch in the loop, it goes through several points at once.
fn all_follow(missing: &[i32]) -> bool
    requires { All InRange (points missing.now) }
    ensures { Tells result (Pairs Before (points missing.now)) }
{
    let mut good = true;
    for i in 1..missing.len() / 2 {
        good &= packed::key_at(missing, i - 1) < packed::key_at(missing, i);
    }
    good
}

// The first missing point that does not follow the one before.
pub fn first_stray(missing: &[i32]) -> Option<usize>
    requires { All InRange (points missing.now) }
    ensures { Found (FirstStray missing.now) (length (points missing.now)) result }
{
    if all_follow(missing) {
        None
    } else {
        find_stray(missing)
    }
}

fn find_stray(missing: &[i32]) -> Option<usize>
    requires { All InRange (points missing.now) }
    ensures { Found (FirstStray missing.now) (length (points missing.now)) result }
{
    let mut least: u32 = 0;
    for i in 0..missing.len() / 2 {
        let k = packed::key_at(missing, i);
        if k < least {
            return Some(i);
        }
        least = k + 1;
    }
    None
}

// Whether a point is a missing point: these are in row order.
fn is_missing(missing: &[i32], x: i32, y: i32) -> bool
    requires { Pairs Before (points missing.now) }
    ensures { Tells result (In (record { x = x; y = y }) (points missing.now)) }
{
    let (points, _) = missing.as_chunks::<2>();
    points
        .binary_search_by_key(&(y, x), |&[x, y]| (y, x))
        .is_ok()
}

// Whether it is known that no corner is a missing point: then the ends of the rows need not be looked for among the corners. For a short list
// that is looked for sooner.
fn all_apart(corners: &[i32], missing: &[i32]) -> bool
    requires { Pairs Before (points missing.now) }
    ensures { result ≡ true → Apart corners.now missing.now }
{
    let (corners, _) = corners.as_chunks::<2>();
    SHORT <= missing.len() && !corners.iter().any(|&[x, y]| is_missing(missing, x, y))
}

// Whether a point is a corner.
fn is_corner(corners: &[i32], x: i32, y: i32) -> bool
    ensures { Tells result (In (record { x = x; y = y }) (points corners.now)) }
{
    let (corners, _) = corners.as_chunks::<2>();
    corners.contains(&[x, y])
}

// A row of the hull: its columns, and the missing points in it, from place `begin` to before `end`.
#[derive(Clone, Copy)]
struct Row<'a> {
    corners: &'a [i32],
    stretch: Stretch,
    missing: &'a [i32],
    // Whether it is known that no corner is a missing point.
    apart: bool,
    begin: usize,
    end: usize,
    ghost inside: { 2 * end ≤ length missing.now },
    // A fact between ∥ and ∥₁ is kept as no more than that it holds.
    ghost in_one_row: { ∥ InOneRow corners.now stretch (points missing.now) begin end ∥₁ },
    ghost known_apart: { apart ≡ true → Apart corners.now missing.now },
}

impl Row<'_> {
    // Whether a point of the row is outside the corners' hull, or is a corner: only the ends of the stretch can be one, and none if corners and
    // missing points are known to be apart.
    // Inlined, so that a row's parts stay in registers: each row asks this once or twice.
    #[inline(always)]
    fn is_misplaced(&self, i: usize) -> bool
        requires { (self.now.begin ≤ i) × (i < self.now.end) }
        ensures { Tells result (MisplacedAt self.now.corners.now self.now.missing.now i) }
    {
        let Stretch { from, to } = self.stretch;
        let x = packed::column_at(self.missing, i);
        if x < from || to <= x {
            return true;
        }
        !self.apart
            && (x == from || x + 1 == to)
            && is_corner(self.corners, self.missing[2 * i], self.missing[2 * i + 1])
    }

    // Whether the first or the last of the row's points is misplaced.
    fn ends_misplaced(&self) -> bool
        ensures { Tells result (EndMisplaced self.now.corners.now self.now.missing.now self.now.begin self.now.end) }
    {
        self.begin < self.end
            && (self.is_misplaced(self.begin)
                || self.begin + 1 < self.end && self.is_misplaced(self.end - 1))
    }

    // The first of the row's points that is misplaced. If neither the first nor the last is, none between them is.
    fn misplaced(&self) -> Option<usize>
        ensures { MatchOption result (EndMisplaced self.now.corners.now self.now.missing.now self.now.begin self.now.end → ⊥) (FirstFrom self.now.begin (MisplacedAt self.now.corners.now self.now.missing.now)) }
    {
        if self.ends_misplaced() {
            (self.begin..self.end).find(|i| self.is_misplaced(*i))
        } else {
            None
        }
    }
}

// Row by row through the hull, as far as there are missing points: the first that is misplaced, how many there are if none is. A point in no row
// of the hull is the one at which the rows' points end.
fn misplaced_by_rows(corners: &[i32], peak: usize, missing: &[i32]) -> usize
    requires { Outline corners.now × Peak (keys_of corners.now) peak × All InRange (points missing.now) × Pairs Before (points missing.now) }
    ensures { FirstMisplaced corners.now missing.now result }
{
    let n = missing.len() / 2;
    let apart = all_apart(corners, missing);
    let mut begin = 0;
    for (y, stretch) in Rows::new(corners, peak) {
        if begin == n {
            break;
        }
        let end = walk::end_of_row(missing, packed::placed(y), begin);
        let row = Row {
            corners,
            stretch,
            missing,
            apart,
            begin,
            end,
        };
        if let Some(place) = row.misplaced() {
            return place;
        }
        begin = end;
    }
    begin
}

// The first missing point that is outside the corners' hull or is a corner.
pub fn first_misplaced(corners: &[i32], missing: &[i32]) -> Option<usize>
    requires { Outline corners.now × All InRange (points missing.now) × Pairs Before (points missing.now) }
    ensures { Found (FirstMisplaced corners.now missing.now) (length (points missing.now)) result }
{
    let place = if corners.len() < 2 {
        0
    } else {
        misplaced_by_rows(corners, walk::peak(corners), missing)
    };
    (place < missing.len() / 2).then_some(place)
}
