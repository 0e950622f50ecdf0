// Row ends and Row: the points of one row of a list in row order.
#![tactic(auto, using(lattice::proofs::Numbers::points_length))]

ghost use Rattle.std.specs.Prelude.{◌≤◌, length};
ghost use Rattle.lattice.specs.Point.{points};
ghost use Rattle.packed.specs.Packed.{Tells};
ghost use Rattle.rows.specs.Row.{Sound, LeadsTo, RunsTo, RowEndsPromise, RowPromise};

// Where the points of a row begin and end, in points from the list's start.
#[repr(C)]
#[derive(Clone, Copy)]
pub struct Ends {
    pub begin: usize,
    pub end: usize,
}

// Whether Row looks at the list at all.
fn sound(list: &[i32]) -> bool
    ensures { Tells result (Sound list.now) }
{
    list.len() % 2 == 0 && list.len() / 2 <= packed::MOST && range::rising(list)
}

// How many points from the start are in rows before y.
fn lead(list: &[i32], y: i32) -> usize
    requires { Sound list.now }
    ensures { LeadsTo (points list.now) y result }
{
    range::pairs(list).partition_point(|&[_, v]| v < y)
}

// Where the points of row y that begin at `begin` end. `position` was tried, and its proof did not close: of a number that it passes nothing tells
// that it fits its type, which `for` has of each item.
pub fn run(list: &[i32], y: i32, begin: usize) -> usize
    requires { begin ≤ length (points list.now) }
    ensures { RunsTo (points list.now) y begin result }
{
    let mut end = begin;
    for &[_, v] in &range::pairs(list)[begin..] {
        if v != y {
            break;
        }
        end += 1;
    }
    end
}

// Where the points of row y begin and end; 0 and 0 for a list that Row does not look at.
pub fn row_ends(list: &[i32], y: i32) -> Ends
    ensures { RowEndsPromise list.now y result }
{
    if sound(list) {
        let begin = lead(list, y);
        let end = run(list, y, begin);
        Ends { begin, end }
    } else {
        Ends { begin: 0, end: 0 }
    }
}

// The points of row y: the part of the list between the two ends.
pub fn row<'a>(list: &'a [i32], y: i32) -> &'a [i32]
    ensures { RowPromise list.now y result.now }
{
    let Ends { begin, end } = row_ends(list, y);
    &list[2 * begin..2 * end]
}
