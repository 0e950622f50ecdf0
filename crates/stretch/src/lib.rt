// Where a hull begins and ends in each row: where two of its edges cross the row. Both are followed from row to row by one addition each.
// The corners are read where they stand, as numbers.
#![tactic(auto)]

ghost use Rattle.std.specs.Prelude.{◌≡◌, ◌+◌, ◌-◌, ◌*◌, ◌/◌, ◌%◌, ◌≤◌, ◌<◌};
ghost use Rattle.packed.specs.Packed.{Tells, side};
ghost use Rattle.stretch.specs.Stretch.{Bounded, HasRow, first_row, unit, column_of, above, move_of, CanRise, Climbs, Only, stepped, GoesOn};
ghost use Rattle.stretch.specs.Corners.{Stands, key, lowest, highest, Spans, Joins, RisesFirst, AtSide, CrossedBy};

use std::marker::Model;

// Columns moved to start at 0, from `from` to below `to`.
#[derive(Clone, Copy)]
pub struct Stretch {
    pub from: u32,
    pub to: u32,
}

impl Stretch {
    // How many columns it has. No From leads from u32 to usize: `as`, which the check proves exact.
    pub fn width(self) -> usize
        requires { self.from ≤ self.to }
        ensures { result ≡ self.to - self.from }
    {
        (self.to - self.from) as usize
    }
}

// The parts of a column. A slope is rounded up to the next part, and as no edge has more than SIDE rows, what that adds never makes up the
// least by which an edge misses a column: a part in SIDE of it.
const UNIT: u64 = 1 << 32;

// How far the left side is moved: a column of which any part is left of the edge is not in the hull. A constant calls no `From`: `as`.
const MOVED: u64 = UNIT - packed::SIDE as u64;

// The corners of a hull, read where they stand, and the place of the last in row order. That the hull has a row is a clause: a ghost field of it
// needs a proof that it is true in one way at most, which antt does not find, and a struct with a model and a lifetime is not `Copy`.
#[derive(Clone, Copy)]
struct Corners<'a> {
    list: &'a [i32],
    peak: usize,
}

impl Corners<'_> {
    // The column of the corner at a place.
    fn column(self, place: usize) -> u32
        requires { Stands self place }
        ensures { (result ≡ key self.entry place % side) × (result < side) }
    {
        packed::column_at(self.list, place)
    }

    // The row of the corner at a place.
    fn row(self, place: usize) -> u32
        requires { Stands self place }
        ensures { (result ≡ key self.entry place / side) × (result < side) }
    {
        packed::row_at(self.list, place)
    }

    // The last row of the hull.
    fn last_row(self) -> u32
        requires { Stands self self.peak }
        ensures { (result ≡ highest self.entry) × (result < side) }
    {
        self.row(self.peak)
    }

    // The first rising edge: the second where the first lies in its row.
    fn first_rising(self) -> usize
        requires { Spans self (lowest self) × (lowest self < highest self) }
        ensures { RisesFirst self.entry result }
    {
        usize::from(self.row(0) == self.row(1))
    }
}

// The sides of a hull, each followed upwards from corner to corner: on the left the corner list goes down, so it is followed back.
#[derive(Clone, Copy)]
enum Side {
    Left,
    Right,
}

impl Side {
    // The place of the corner above another.
    fn above(self, place: usize) -> usize
        requires { CanRise self place }
        ensures { result ≡ above self place }
    {
        match self {
            Side::Left => place - 1,
            Side::Right => place + 1,
        }
    }

    // How far the side is moved to the right, in parts of a column.
    fn moved(self) -> u64
        ensures { result ≡ move_of self }
    {
        match self {
            Side::Left => MOVED,
            Side::Right => 0,
        }
    }
}

// An edge that crosses a row: the place of its upper corner, the last row that it crosses, where it crosses this row, and how far it goes
// from row to row. Both are parts of a column, with SIDE columns added for each row, so that none is below zero.
#[derive(Clone, Copy)]
struct Edge {
    top: usize,
    last: u32,
    position: u64,
    slope: u64,
}

impl Edge {
    // The edge from the corner at place `low` up to that at `high`, in row y.
    fn climb(side: Side, corners: Corners, low: usize, high: usize, y: u32) -> Self
        requires { Joins corners low high y }
        ensures { (result.top ≡ high) × Climbs (key corners.entry low) (key corners.entry high) y (move_of side) result }
    {
        let first = corners.row(low);
        let last = corners.row(high);
        let column = u64::from(corners.column(low));
        let height = u64::from(last - first);
        let growth = u64::from(corners.column(high)) + u64::from(packed::SIDE) * height - column;
        let slope = growth * UNIT / height + 1;
        Self {
            top: high,
            last,
            position: column * UNIT + side.moved() + slope * u64::from(y - first),
            slope,
        }
    }

    // A corner of a hull that has one row.
    fn only(column: u32, row: u32) -> Self
        requires { column < side }
        ensures { Only (side * row + column) result }
    {
        Self {
            top: 0,
            last: row,
            position: u64::from(column) * UNIT,
            slope: 0,
        }
    }

    // One row further.
    fn step(&mut self)
        requires { self.old.position + self.old.slope < unit * unit }
        ensures { self.new ≡ stepped self.old }
    {
        self.position += self.slope;
    }

    // On to the row after y: the same edge one row further, or where it has ended the next of its side that reaches so far.
    fn advance(&mut self, side: Side, corners: Corners, y: u32)
        requires { Spans corners y × (y < highest corners) × AtSide side corners y self.old }
        ensures { AtSide side corners.entry (y + 1) self.new }
    {
        if y < self.last {
            self.step();
            return;
        }
        let mut low = self.top;
        let mut high = side.above(low);
        while corners.row(high) <= y {
            low = high;
            high = side.above(high);
        }
        *self = Self::climb(side, corners, low, high, y + 1);
    }

    // The column that it crosses. No From leads from u64 to u32: `as`, which the check proves exact.
    fn column(&self) -> u32
        ensures { result ≡ column_of self.now }
    {
        (self.position / UNIT) as u32 % packed::SIDE
    }
}

// The edges that cross a row: the hull lies between them.
#[derive(Clone, Copy)]
struct Crossing {
    left: Edge,
    right: Edge,
}

impl Crossing {
    // Both sides in the first row.
    fn start(corners: Corners, y: u32) -> Self
        requires { Spans corners (lowest corners) × (y ≡ lowest corners) }
        ensures { CrossedBy corners.entry y result }
    {
        if y == corners.last_row() {
            Self {
                left: Edge::only(corners.column(0), y),
                right: Edge::only(corners.column(corners.peak), y),
            }
        } else {
            let rising = corners.first_rising();
            Self {
                left: Edge::climb(Side::Left, corners, 0, corners.list.len() / 2 - 1, y),
                right: Edge::climb(Side::Right, corners, rising, rising + 1, y),
            }
        }
    }

    // Whether both edges cross the row after y as well.
    fn goes_on(&self, y: u32) -> bool
        ensures { Tells result (GoesOn self.now y) }
    {
        y < self.left.last && y < self.right.last
    }

    // Both edges one row further.
    fn step(&mut self)
        requires { (self.old.left.position + self.old.left.slope < unit * unit) × (self.old.right.position + self.old.right.slope < unit * unit) }
        ensures { self.new ≡ record { left = stepped self.old.left; right = stepped self.old.right } }
    {
        self.left.step();
        self.right.step();
    }

    // On to the row after y, if the hull has it, where an edge may have ended: all rows together take as many steps as there are rows and corners.
    #[inline(never)]
    fn pass_corner(&mut self, corners: Corners, y: u32)
        requires { Spans corners y × CrossedBy corners y self.old }
        ensures { y < highest corners.entry → CrossedBy corners.entry (y + 1) self.new }
    {
        if y < corners.last_row() {
            self.left.advance(Side::Left, corners, y);
            self.right.advance(Side::Right, corners, y);
        }
    }

    // On to the row after y, if the hull has it. In most rows both edges go on, so what happens at a corner stands apart.
    fn advance(&mut self, corners: Corners, y: u32)
        requires { Spans corners y × CrossedBy corners y self.old }
        ensures { y < highest corners.entry → CrossedBy corners.entry (y + 1) self.new }
    {
        if self.goes_on(y) {
            self.step();
        } else {
            self.pass_corner(corners, y);
        }
    }

    // The columns of the row between both sides, none if these pass each other.
    fn across(&self) -> Stretch
        ensures { Bounded (column_of self.now.left) (column_of self.now.right + 1) result }
    {
        let to = self.right.column() + 1;
        Stretch {
            from: self.left.column().min(to),
            to,
        }
    }
}

// The rows of a hull from that of its first corner to that of its last, each with the columns in which the hull has points of it.
#[derive(Clone, Drop)]
pub struct Rows<'a> {
    corners: Corners<'a>,
    last: u32,
    y: u32,
    crossing: Crossing,
}

impl<'a> Model for Rows<'a> {
    ghost use Rattle.stretch.specs.Ahead.{Ahead};

    ghost Value = { Ahead };

    ghost use Rattle.stretch.specs.Stretch.{Following};

    ghost view = { λ r. record { corners = r.corners.list.now; peak = r.corners.peak; y = r.y } };

    ghost invariant = { λ r. Following r.corners.list.now r.corners.peak r.last r.y r.crossing };
}

impl<'a> Rows<'a> {
    // All rows of a corner list's hull. Its last corner in row order stands at place `peak`.
    pub fn new(corners: &'a [i32], peak: usize) -> Self
        requires { HasRow corners.now peak (first_row corners.now) }
        ensures { result ≡ record { corners = corners.now; peak = peak; y = first_row corners.now } }
    {
        let corners = Corners {
            list: corners,
            peak,
        };
        let y = corners.row(0);
        Self {
            corners,
            last: corners.last_row(),
            y,
            crossing: Crossing::start(corners, y),
        }
    }
}

impl Iterator for Rows<'_> {
    ghost use Rattle.stretch.specs.Ahead.{NextRow, rows_left};

    type Item = (u32, Stretch);

    ghost next_gives = { NextRow };

    ghost remaining = { rows_left };

    #[inline(always)]
    fn next(&mut self) -> Option<(u32, Stretch)> {
        if self.last < self.y {
            return None;
        }
        let row = (self.y, self.crossing.across());
        self.crossing.advance(self.corners, self.y);
        self.y += 1;
        Some(row)
    }
}
