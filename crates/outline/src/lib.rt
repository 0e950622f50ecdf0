// Whether a list of numbers is a corner list: refusal 8.
#![tactic(auto)]

ghost use Rattle.std.specs.Prelude.{◌<◌};
ghost use Rattle.lattice.specs.Point.{InRange, points, All};
ghost use Rattle.lattice.specs.Hull.{CornerList};
ghost use Rattle.packed.specs.Packed.{Tells, cells};
ghost use Rattle.outline.specs.Follows.{Follows};

// Whether a corner follows those before it: behind the first in row order, and to the left, as the first corner sees it and as the last but
// one does. Neighbours alone do not tell: a star turns left at every corner.
fn follows(first: u32, earlier: u32, before: u32, corner: u32) -> bool
    requires { (first < cells) × (earlier < cells) × (before < cells) × (corner < cells) }
    ensures { Tells result (Follows first earlier before corner) }
{
    first < corner && packed::left(first, before, corner) && packed::left(earlier, before, corner)
}

// Whether the points of a list are a corner list. Each is read once.
pub fn is_corner_list(corners: &[i32]) -> bool
    requires { All InRange (points corners.now) }
    ensures { Tells result (CornerList (points corners.now) (points corners.now)) }
{
    let n = corners.len() / 2;
    if n < 2 {
        return true;
    }
    let first = packed::key_at(corners, 0);
    let mut earlier = first;
    let mut before = packed::key_at(corners, 1);
    if before <= first {
        return false;
    }
    for i in 2..n {
        let corner = packed::key_at(corners, i);
        if !follows(first, earlier, before, corner) {
            return false;
        }
        earlier = before;
        before = corner;
    }
    true
}
