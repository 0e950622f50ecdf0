// A list of points before it is packed: its pairs, is it in range, the first point that is not, is it in range and strictly in row order.
#![tactic(auto)]

ghost use Rattle.std.specs.Prelude.{◌≡◌, true, length};
ghost use Rattle.lattice.specs.Point.{points, InRange, All, Pairs, Before};
ghost use Rattle.lattice.specs.Refusal.{AtPoint, OutOfRange};
ghost use Rattle.packed.specs.Packed.{Tells};
ghost use Rattle.range.specs.First.{FirstBelow, FirstOutside, Found};
ghost use Rattle.range.specs.Pairs.{pairs_of, points_of};

// The points of a list, each as the pair of its coordinates.
pub fn pairs(list: &[i32]) -> &[[i32; 2]]
    ensures { result.now ≡ pairs_of list.now }
{
    list.as_chunks::<2>().0
}

// Whether all points are in range. The loop goes on behind a point that is not: without a branch it goes through several points at once.
fn all_inside(points: &[[i32; 2]]) -> bool
    ensures { Tells result (All InRange (points_of points.now)) }
{
    let mut good = true;
    for &[x, y] in points {
        good &= packed::in_range(x, y);
    }
    good
}

// The first point that is out of range. Where none is, the test of all tells so sooner.
pub fn first_outside(list: &[i32]) -> Option<usize>
    ensures { Found (FirstOutside list.now) (length (points list.now)) result }
{
    let points = pairs(list);
    if all_inside(points) {
        None
    } else {
        Some(find_outside(points))
    }
}

// By halves: what is left is tested as far as its middle, so that all tests together go through as many points as the list has. A loop from point
// to point was tried: Order took more than half as many instructions again where the last of 4,096 points is out of range.
fn find_outside(points: &[[i32; 2]]) -> usize
    requires { All InRange (points_of points.now) → ⊥ }
    ensures { FirstBelow (length (points_of points.now)) (AtPoint OutOfRange (points_of points.now)) result }
{
    let mut low = 0;
    let mut high = points.len();
    while low + 1 < high {
        let middle = low + (high - low) / 2;
        if all_inside(&points[low..middle]) {
            low = middle;
        } else {
            high = middle;
        }
    }
    low
}

// Whether all points are in range and strictly in row order: each is packed to at least one more than the one before.
pub fn rising(list: &[i32]) -> bool
    ensures { Tells result (All InRange (points list.now) × Pairs Before (points list.now)) }
{
    let mut least = 0;
    for &[x, y] in pairs(list) {
        if !packed::in_range(x, y) {
            return false;
        }
        let k = packed::packed(x, y);
        if k < least {
            return false;
        }
        least = k + 1;
    }
    true
}
