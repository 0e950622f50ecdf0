// Rebuild: the way back, from corners and missing points to the points.
#![tactic(auto)]

ghost use Rattle.std.specs.Prelude.{◌≡◌};
ghost use Rattle.lattice.specs.Point.{points};
ghost use Rattle.lattice.specs.Refusal.{accepted, rebuild_rows};
ghost use Rattle.walk.specs.Walk.{Walked};
ghost use Rattle.rebuild.specs.Answer.{rebuilt_of, uncounted};
ghost use Rattle.rebuild.specs.Rebuild.{input_rows, result_rows, rebuild_table, RebuildPromise};
ghost use Rattle.rebuild.specs.Looking.{Taken, Looks, Foreseen};

use refusal::Refusal;

// Rebuild's answer as document 01 numbers it and as C has it: number and place, 0 and 0 if accepted, and how many points there are.
#[repr(C)]
#[derive(Clone, Copy)]
pub struct Rebuilt {
    pub number: u32,
    pub place: usize,
    pub points: usize,
}

impl From<Result<usize, Refusal>> for Rebuilt {
    ghost from_gives = { λ answer rebuilt. rebuilt ≡ rebuilt_of answer };

    fn from(answer: Result<usize, Refusal>) -> Rebuilt {
        match answer {
            Ok(points) => Rebuilt {
                number: 0,
                place: 0,
                points,
            },
            Err(refusal) => Rebuilt {
                number: refusal.number(),
                place: refusal.place(),
                points: 0,
            },
        }
    }
}

// Refusals 1, 2 and 3 of both lists.
fn look_at_lists(corners: &[i32], missing: &[i32]) -> Result<(), Refusal>
    ensures { Looks (input_rows corners.now missing.now accepted) (uncounted result) }
{
    if corners.len() % 2 == 1 || missing.len() % 2 == 1 {
        return Err(Refusal::OddLength);
    }
    if packed::MOST < corners.len() / 2 {
        return Err(Refusal::TooManyPoints);
    }
    if let Some(place) = range::first_outside(corners) {
        return Err(Refusal::OutOfRange(place));
    }
    if let Some(place) = range::first_outside(missing) {
        return Err(Refusal::OutOfRange(place));
    }
    Ok(())
}

// Refusals 8, 9 and 10 of points in range.
fn look_at_points(corners: &[i32], missing: &[i32]) -> Result<(), Refusal>
    requires { Taken corners.now missing.now }
    ensures { Looks (rebuild_rows (points corners.now) (points missing.now) accepted) (uncounted result) }
{
    if !outline::is_corner_list(corners) {
        return Err(Refusal::NoCornerList);
    }
    if let Some(place) = missing::first_stray(missing) {
        return Err(Refusal::Strays(place));
    }
    if let Some(place) = missing::first_misplaced(corners, missing) {
        return Err(Refusal::Misplaced(place));
    }
    Ok(())
}

// Refusals 11 and 12, or how many points result.
fn count_result(corners: &[i32], missing: &[i32], room: &[i32]) -> Result<usize, Refusal>
    requires { Walked corners.now missing.now }
    ensures { Foreseen (result_rows (points corners.now) (points missing.now) room.now accepted) corners.now missing.now room.now (rebuilt_of result) }
{
    let count = pick::count_of(corners) - (missing.len() / 2) as u64;
    if count > packed::MOST as u64 {
        return Err(Refusal::TooManyResult);
    }
    if count > (room.len() / 2) as u64 {
        return Err(Refusal::PointsTooSmall);
    }
    Ok(count as usize)
}

// The first refusal that applies, or how many points result. The room is only looked at.
fn foresee(corners: &[i32], missing: &[i32], room: &[i32]) -> Result<usize, Refusal>
    ensures { Foreseen (rebuild_table corners.now missing.now room.now) corners.now missing.now room.now (rebuilt_of result) }
{
    look_at_lists(corners, missing)?;
    look_at_points(corners, missing)?;
    count_result(corners, missing, room)
}

// The points of the corners' hull that are not missing, in row order at the front of the room; how many there are.
pub fn rebuild(corners: &[i32], missing: &[i32], room: &mut [i32]) -> Result<usize, Refusal>
    ensures { RebuildPromise corners.now missing.now room.old (rebuilt_of result) room.new }
{
    let points = foresee(corners, missing, room)?;
    walk::write(corners, missing, room);
    Ok(points)
}
