// The lattice points of a hull that a list in row order lacks, row by row: the first of them, all of them.
#![tactic(auto, using(lattice::proofs::Numbers::points_length))]

ghost use Rattle.std.specs.Prelude.{◌≡◌, ◌⊎◌, true, ◌<◌, ◌≤◌, ◌-◌, ◌*◌, ◌^◌, length};
ghost use Rattle.lattice.specs.Point.{InRange, points, point, All, Pairs, Before};
ghost use Rattle.packed.specs.Packed.{Tells, side};
ghost use Rattle.packed.specs.Corners.{keys_of, Outline};
ghost use Rattle.rows.specs.Row.{RunsTo};
ghost use Rattle.stretch.specs.Stretch.{Peak};
ghost use Rattle.walk.specs.Walk.{Walked, Lacking, FirstIn, Takes, Puts, RowPoints, Gap, Across, InRow, Neighbour, FirstColumn};

use stretch::{Rows, Stretch};

// The place of the last corner in row order. The corners rise to it and then fall, so it is found by halves: std's `partition_point` goes
// by elements, and a corner is two of them.
pub fn peak(corners: &[i32]) -> usize
    requires { Outline corners.now × (0 < length (points corners.now)) }
    ensures { Peak (keys_of corners.now) result }
{
    let mut low = 0;
    let mut high = corners.len() / 2 - 1;
    while low < high {
        let middle = low + (high - low) / 2;
        if packed::key_at(corners, middle) < packed::key_at(corners, middle + 1) {
            low = middle + 1;
        } else {
            high = middle;
        }
    }
    low
}

// The farthest place behind place i to which steps lead that double as long as the place they reach passes: a long run takes few steps.
fn farthest<F: Fn(usize) -> bool>(count: usize, i: usize, passes: F) -> usize
    requires inside { i < count }
    requires few { count < 2 ^ 63 }
    requires asked { (j : _) → i < j → j < count → F.pre passes j }
    ensures from { i ≤ result }
    ensures upto { result < count }
    ensures passed { (result ≡ i) ⊎ F.post passes result true }
{
    let mut last = i;
    let mut step = 1;
    while step < count - i && passes(i + step) {
        last = i + step;
        step *= 2;
    }
    last
}

// A point of row y, as far behind one of that row as the steps lead.
fn later_in_row(list: &[i32], y: i32, i: usize) -> usize
    requires { InRow list.now y i }
    ensures { (i ≤ result) × InRow list.now y result }
{
    farthest(list.len() / 2, i, |k| list[2 * k + 1] == y)
}

// Where the points of row y end that begin at a place of a list in row order.
pub fn end_of_row(list: &[i32], y: i32, begin: usize) -> usize
    requires { Pairs Before (points list.now) × (begin ≤ length (points list.now)) }
    ensures { RunsTo (points list.now) y begin result }
{
    let n = list.len() / 2;
    let mut i = begin;
    while i < n && list[2 * i + 1] == y {
        i = later_in_row(list, y, i) + 1;
    }
    i
}

// Whether a row has an i-th point, and this is in column x.
fn holds(row: &[i32], i: usize, x: i32) -> bool
    ensures { Tells result ((i < length (points row.now)) × ((point (points row.now) i).x ≡ x)) }
{
    i < row.len() / 2 && row[2 * i] == x
}

// The column from which on to look for a gap: a row with as many points as columns has none.
fn first_column(row: &[i32], columns: Stretch) -> u32
    requires { columns.from ≤ columns.to }
    ensures { FirstColumn columns (length (points row.now)) result }
{
    if row.len() / 2 == columns.width() {
        columns.to
    } else {
        columns.from
    }
}

// The first lattice point of the hull that the list lacks, packed. Document 01 names the form: nested loops over rows and columns, left by a
// label with that point. No From leads from u32 to usize: `as`, which the check proves exact.
pub fn first(corners: &[i32], list: &[i32]) -> Option<u32>
    requires { Walked corners.now list.now }
    ensures { FirstIn (Lacking corners.now list.now) result }
{
    if corners.len() < 2 {
        return None;
    }
    let mut rows = Rows::new(corners, peak(corners));
    let mut begin = 0;
    'rows: loop {
        let Some((y, columns)) = rows.next() else {
            break 'rows None;
        };
        let end = end_of_row(list, packed::placed(y), begin);
        let row = &list[2 * begin..2 * end];
        for x in first_column(row, columns)..columns.to {
            if !holds(row, (x - columns.from) as usize, packed::placed(x)) {
                break 'rows Some(packed::SIDE * y + x);
            }
        }
        begin = end;
    }
}

// A point of the row that is as many columns behind another as places, as far behind it as the steps lead: there is no gap between them.
fn neighbour(row: &[i32], i: usize) -> usize
    requires { (i < length (points row.now)) × All InRange (points row.now) }
    ensures { Neighbour row.now i result }
{
    let first = packed::column_at(row, i) as usize;
    farthest(
        row.len() / 2,
        i,
        |k| packed::column_at(row, k) as usize == first + (k - i),
    )
}

// All lattice points of a row's stretch, at the front of the room; how many there are. They are written by place: of a room that
// `chunks_exact_mut` has lent out a proof knows the length alone. No From leads from usize to u32: `as`, which the check proves exact.
fn fill(stretch: Stretch, y: u32, room: &mut [i32]) -> usize
    requires { (stretch.from ≤ stretch.to) × (stretch.to ≤ side) × (y < side) × (2 * (stretch.to - stretch.from) ≤ length room.old) }
    ensures { Puts (Across stretch y) room.old result room.new }
{
    let width = stretch.width();
    for i in 0..width {
        room[2 * i] = packed::placed(stretch.from + i as u32);
        room[2 * i + 1] = packed::placed(y);
    }
    width
}

// The lattice points of a row's stretch that are no points of the row, gap by gap, at the front of the room; how many there are. A row with as
// many points as columns has no gap.
fn write_row(row: &[i32], stretch: Stretch, y: u32, room: &mut [i32]) -> usize
    requires { RowPoints row.now stretch y × (y < side) × Takes (Gap row.now stretch y) room.old }
    ensures { Puts (Gap row.now stretch y) room.old result room.new }
{
    let n = row.len() / 2;
    if n == stretch.width() {
        return 0;
    }
    let mut i = 0;
    let mut used = 0;
    let mut x = stretch.from;
    while i < n {
        let gap = Stretch {
            from: x,
            to: packed::column_at(row, i),
        };
        used += fill(gap, y, &mut room[2 * used..]);
        let last = neighbour(row, i);
        x = packed::column_at(row, last) + 1;
        i = last + 1;
    }
    let rest = Stretch { from: x, ..stretch };
    used + fill(rest, y, &mut room[2 * used..])
}

// All lattice points of the hull that the list lacks, at the front of the room; how many there are.
pub fn write(corners: &[i32], list: &[i32], room: &mut [i32]) -> usize
    requires { Walked corners.now list.now × Takes (Lacking corners.now list.now) room.old }
    ensures { Puts (Lacking corners.now list.now) room.old result room.new }
{
    if corners.len() < 2 {
        return 0;
    }
    let mut used = 0;
    let mut begin = 0;
    for (y, stretch) in Rows::new(corners, peak(corners)) {
        let end = end_of_row(list, packed::placed(y), begin);
        used += write_row(&list[2 * begin..2 * end], stretch, y, &mut room[2 * used..]);
        begin = end;
    }
    used
}
