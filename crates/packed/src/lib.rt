// Points as the code holds them, each one number below 2^28 in row order, and the turn of three of them.
#![tactic(auto)]

ghost use Rattle.std.specs.Prelude.{◌≡◌, ◌/◌, ◌%◌, ◌<◌, pos, length, get_or, ◌-ℤ◌, ◌≤ℤ◌};
ghost use Rattle.std.specs.Int.Signed.{lt_z};
ghost use Rattle.lattice.specs.Point.{Point, least, greatest, InRange, points, point};
ghost use Rattle.lattice.specs.Hull.{turn as turn_of};
ghost use Rattle.packed.specs.Packed.{Tells, Within, offset, side, cells, moved as moved_of, placed as placed_of, packed as packed_of, unpacked as unpacked_of};
ghost use Rattle.packed.specs.Corners.{keys_of};

use lattice::Point;
use std::marker::Model;

// The most points that go in, and the range of a coordinate.
pub const MOST: usize = 4096;

pub const LEAST: i32 = -8192;

pub const GREATEST: i32 = 8191;

// How many points the range has.
pub const CELLS: usize = 268435456;

// A coordinate is moved by OFFSET to start at 0, and has SIDE values: a point is packed as SIDE times its row and its column.
const OFFSET: i32 = 8192;

pub const SIDE: u32 = 16384;

// Whether both coordinates are in range.
pub fn in_range(x: i32, y: i32) -> bool
    ensures { Tells result (InRange (record { x = x; y = y })) }
{
    (LEAST..=GREATEST).contains(&x) && (LEAST..=GREATEST).contains(&y)
}

// A coordinate of the range, moved to start at 0; and back. Only these two are signed and unsigned at once, and cast: no `From` leads
// from one to the other, and a cast is proved to lose nothing.
pub fn moved(z: i32) -> u32
    requires { (least ≤ℤ z) × (z ≤ℤ greatest) }
    ensures { (result ≡ moved_of z) × (result < side) }
{
    (z + OFFSET) as u32
}

pub fn placed(n: u32) -> i32
    requires { n < side }
    ensures { result ≡ placed_of n }
{
    n as i32 - OFFSET
}

// A point of the range as one number.
pub fn packed(x: i32, y: i32) -> u32
    requires { InRange (record { x = x; y = y }) }
    ensures { (result ≡ packed_of (record { x = x; y = y })) × (result < cells) }
{
    SIDE * moved(y) + moved(x)
}

// A list is read where it stands: the column and the row of the point at a place, moved to start at 0, and the point, packed.
// These three keep the clauses that every crate above names, one and the same `requires` among them.
#[tactic(auto, using(lattice::proofs::Numbers::points_length, lattice::proofs::Numbers::points_at))]
pub fn column_at(list: &[i32], i: usize) -> u32
    requires { (i < length (points list.now)) × InRange (point (points list.now) i) }
    ensures { (result ≡ moved_of (point (points list.now) i).x) × (result < side) × (result ≡ get_or (keys_of list.now) i 0 % side) }
{
    moved(list[2 * i])
}

#[tactic(auto, using(lattice::proofs::Numbers::points_length, lattice::proofs::Numbers::points_at))]
pub fn row_at(list: &[i32], i: usize) -> u32
    requires { (i < length (points list.now)) × InRange (point (points list.now) i) }
    ensures { (result ≡ moved_of (point (points list.now) i).y) × (result < side) × (result ≡ get_or (keys_of list.now) i 0 / side) }
{
    moved(list[2 * i + 1])
}

#[tactic(auto, using(lattice::proofs::Numbers::points_length, lattice::proofs::Numbers::points_at))]
pub fn key_at(list: &[i32], i: usize) -> u32
    requires { (i < length (points list.now)) × InRange (point (points list.now) i) }
    ensures { (result ≡ packed_of (point (points list.now) i)) × (result < cells) × (result ≡ get_or (keys_of list.now) i 0) }
{
    packed(list[2 * i], list[2 * i + 1])
}

// Its coordinates.
pub fn column(k: u32) -> i32
    ensures { result ≡ (unpacked_of k).x }
{
    placed(k % SIDE)
}

pub fn row(k: u32) -> i32
    requires { k < cells }
    ensures { result ≡ (unpacked_of k).y }
{
    placed(k / SIDE)
}

// The point itself.
pub fn unpacked(k: u32) -> Point
    requires { k < cells }
    ensures { result ≡ unpacked_of k }
{
    Point {
        x: column(k),
        y: row(k),
    }
}

// A point to compute with: its column and row, moved to start at 0, in 64 bits. A contract sees the point itself.
#[derive(Drop)]
struct Spot {
    column: i64,
    row: i64,
}

impl Model for Spot {
    ghost Value = { Point };

    ghost view = { λ p. record { x = p.column -ℤ pos offset; y = p.row -ℤ pos offset } };

    ghost invariant = { λ p. Within side p.column × Within side p.row };
}

impl Spot {
    fn of(k: u32) -> Self
        requires { k < cells }
        ensures { result ≡ unpacked_of k }
    {
        Spot {
            column: i64::from(k % SIDE),
            row: i64::from(k / SIDE),
        }
    }

    // The turn from here over b to c.
    fn turn(self, b: Self, c: Self) -> i64
        ensures { result ≡ turn_of self b c }
    {
        (b.column - self.column) * (c.row - self.row)
            - (b.row - self.row) * (c.column - self.column)
    }
}

// Whether c lies to the left of the line from a to b.
pub fn left(a: u32, b: u32, c: u32) -> bool
    requires { (a < cells) × (b < cells) × (c < cells) }
    ensures { result ≡ lt_z (pos 0) (turn_of (unpacked_of a) (unpacked_of b) (unpacked_of c)) }
{
    Spot::of(a).turn(Spot::of(b), Spot::of(c)) > 0
}
