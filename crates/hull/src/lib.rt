// Hull: the points of a list in row order, and the corners of its hull. The one home of the working space of all calls over a grain.
#![tactic(auto)]

ghost use Rattle.std.specs.Prelude.{◌≡◌, ◌+◌, ◌*◌, ◌≤◌};
ghost use Rattle.lattice.specs.Point.{most};
ghost use Rattle.packed.specs.Packed.{Tells};
ghost use Rattle.packed.specs.Corners.{Cornered};
ghost use Rattle.arrange.specs.Space.{Fits};
ghost use Rattle.hull.specs.Hull.{HullPromise};
ghost use Rattle.hull.specs.Answer.{hulled_of};
ghost use Rattle.hull.specs.Within.{WithinPromise, HullSpace, HasMore, FindsFor};

use arrange::Space;
use refusal::Refusal;

// How many points and corners a grain has.
#[derive(Clone, Copy)]
pub struct Counts {
    pub points: usize,
    pub corners: usize,
}

// Hull's answer as document 01 numbers it and as C has it: number and place, 0 and 0 if accepted, and the counts.
#[repr(C)]
#[derive(Clone, Copy)]
pub struct Hulled {
    pub number: u32,
    pub place: usize,
    pub points: usize,
    pub corners: usize,
}

impl From<Result<Counts, Refusal>> for Hulled {
    ghost from_gives = { λ answer hulled. hulled ≡ hulled_of answer };

    fn from(answer: Result<Counts, Refusal>) -> Hulled {
        match answer {
            Ok(counts) => Hulled {
                number: 0,
                place: 0,
                points: counts.points,
                corners: counts.corners,
            },
            Err(refusal) => Hulled {
                number: refusal.number(),
                place: refusal.place(),
                points: 0,
                corners: 0,
            },
        }
    }
}

// How many pairs each room has.
#[derive(Clone, Copy)]
struct Pairs {
    ordered: usize,
    corners: usize,
    missing: usize,
}

// Whether more than `limit` lattice points of the hull of packed corners are left when `points` of them are taken off. Where the limit is as large
// as the range none can be, and nothing is counted.
fn leaves_more(corners: &[u32], points: usize, limit: usize) -> bool
    requires { Cornered corners.now × (points ≤ most) }
    ensures { Tells result (HasMore corners.now (points + limit)) }
{
    limit < packed::CELLS && ((points + limit) as u64) < pick::count(corners)
}

// Refusals 1 to 7 of a list, for rooms of so many pairs; or its counts, with its points in row order at the front of `keys` and its corners at the
// front of `stack`.
fn find(list: &[i32], keys: &mut [u32], stack: &mut [u32], pairs: Pairs) -> Result<Counts, Refusal>
    requires { HullSpace list.now keys.old stack.old }
    ensures { FindsFor list.now pairs.ordered pairs.corners pairs.missing (hulled_of result) keys.new stack.new }
{
    let points = order::find(list, keys)?;
    if pairs.ordered < points {
        return Err(Refusal::OrderedTooSmall);
    }
    let corners = scan::scan(&keys[..points], stack);
    if pairs.corners < corners {
        return Err(Refusal::CornersTooSmall);
    }
    if leaves_more(&stack[..corners], points, pairs.missing) {
        return Err(Refusal::MissingTooSmall);
    }
    Ok(Counts { points, corners })
}

// Hull of a grain with at most `missing` missing points, in working space that is lent.
fn within_in(
    list: &[i32],
    ordered: &mut [i32],
    corners: &mut [i32],
    missing: usize,
    keys: &mut [u32],
    stack: &mut [u32],
) -> Result<Counts, Refusal>
    requires { HullSpace list.now keys.old stack.old }
    ensures { WithinPromise list.now ordered.old corners.old missing (hulled_of result) ordered.new corners.new }
{
    let pairs = Pairs {
        ordered: ordered.len() / 2,
        corners: corners.len() / 2,
        missing,
    };
    let counts = find(list, keys, stack, pairs)?;
    order::write(&keys[..counts.points], ordered);
    order::write(&stack[..counts.corners], corners);
    Ok(counts)
}

// The same in working space for `N` points and as many as `M` corners on their stack.
fn within_with<const N: usize, const M: usize>(
    list: &[i32],
    ordered: &mut [i32],
    corners: &mut [i32],
    missing: usize,
) -> Result<Counts, Refusal>
    requires { Fits N list.now × (2 * N ≤ M) × (M ≤ 2 * most) }
    ensures { WithinPromise list.now ordered.old corners.old missing (hulled_of result) ordered.new corners.new }
{
    let mut keys = [0u32; N];
    let mut stack = [0u32; M];
    within_in(list, ordered, corners, missing, &mut keys, &mut stack)
}

// How many corners their stack has place for, on the way up and on the way down.
const SMALL_STACK: usize = 2 * arrange::SMALL;

const MIDDLE_STACK: usize = 2 * arrange::MIDDLE;

const LARGE_STACK: usize = 2 * packed::MOST;

// Hull of a grain with at most `missing` missing points; 7 for all others.
pub fn within(
    list: &[i32],
    ordered: &mut [i32],
    corners: &mut [i32],
    missing: usize,
) -> Result<Counts, Refusal>
    ensures { WithinPromise list.now ordered.old corners.old missing (hulled_of result) ordered.new corners.new }
{
    match arrange::tier(list) {
        Space::Small => within_with::<{ arrange::SMALL }, SMALL_STACK>(
            list, ordered, corners, missing,
        ),
        Space::Middle => within_with::<{ arrange::MIDDLE }, MIDDLE_STACK>(
            list, ordered, corners, missing,
        ),
        Space::Large => within_with::<{ packed::MOST }, LARGE_STACK>(
            list, ordered, corners, missing,
        ),
    }
}

// The points of a list in row order and the corners of its hull, each at the front of its room; how many of each. No grain has as many missing points
// as the range has points.
pub fn hull(list: &[i32], ordered: &mut [i32], corners: &mut [i32]) -> Result<Counts, Refusal>
    ensures { HullPromise list.now ordered.old corners.old (hulled_of result) ordered.new corners.new }
{
    within(list, ordered, corners, packed::CELLS)
}
