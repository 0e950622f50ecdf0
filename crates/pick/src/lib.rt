// How many lattice points a hull has, by Pick's formula: from the corners alone, no row is gone through.
#![tactic(auto)]

ghost use Rattle.std.specs.Prelude.{◌≡◌, ℕ, List, ◌-◌, ◌/◌, ◌≤◌, ◌<◌, length, get_or};
ghost use Rattle.lattice.specs.Point.{points, All, InRange};
ghost use Rattle.lattice.specs.Hull.{InHull, Of};
ghost use Rattle.packed.specs.Packed.{cells};
ghost use Rattle.packed.specs.Corners.{HullOf, Cornered, Outline, CountOf, keys_of};
ghost use Rattle.pick.specs.Pick.{divisor as divisor_of};
ghost use Rattle.pick.specs.Edge.{steps as steps_of, gain as gain_of, loss as loss_of, Small, Adds};

use packed::SIDE;
use std::marker::Model;

// The greatest common divisor, by Euclid's steps.
#[tactic(auto, using(crate::proofs::Divisor::divisor_step))]
fn common_divisor(a: u32, b: u32) -> u32
    ensures { result ≡ divisor_of a b }
{
    if b == 0 { a } else { common_divisor(b, a % b) }
}

// A corner: its column and row, moved to start at 0. A contract sees the corner packed.
#[derive(Drop)]
struct Corner {
    column: u32,
    row: u32,
}

impl Model for Corner {
    ghost use Rattle.std.specs.Prelude.{ℕ, ◌+◌, ◌*◌, ◌<◌};
    ghost use Rattle.packed.specs.Packed.{side};

    ghost Value = { ℕ };

    ghost view = { λ c. side * c.row + c.column };

    ghost invariant = { λ c. (c.column < side) × (c.row < side) };
}

impl Corner {
    fn of(key: u32) -> Self
        requires { key < cells }
        ensures { result ≡ key }
    {
        Corner {
            column: key % SIDE,
            row: key / SIDE,
        }
    }

    // Into how many steps from lattice point to lattice point the edge to the next corner falls.
    fn steps(&self, next: &Self) -> u32
        ensures { result ≡ steps_of self.now next.now }
    {
        common_divisor(
            self.column.abs_diff(next.column),
            self.row.abs_diff(next.row),
        )
    }

    // What that edge adds to twice the count, and what it takes off: both natural, so that the sums are.
    fn gain(&self, next: &Self) -> u64
        ensures { (result ≡ gain_of self.now next.now) × (result < 8589934592) }
    {
        u64::from(self.column) * u64::from(next.row) + u64::from(self.steps(next))
    }

    fn loss(&self, next: &Self) -> u64
        ensures { (result ≡ loss_of self.now next.now) × (result < 8589934592) }
    {
        u64::from(next.column) * u64::from(self.row)
    }
}

// The edges up to a corner: what they gained and lost.
#[derive(Drop)]
struct Edges {
    corner: Corner,
    gained: u64,
    lost: u64,
}

impl Edges {
    // No edge yet: the first leaves this corner.
    fn leaving(corner: Corner) -> Self
        ensures { result ≡ record { corner = corner; gained = 2; lost = 0 } }
    {
        Edges {
            corner,
            gained: 2,
            lost: 0,
        }
    }

    // With the edge to one corner more.
    fn to(self, next: Corner) -> Self
        requires { Small self }
        ensures { Adds self next result }
    {
        Edges {
            gained: self.gained + self.corner.gain(&next),
            lost: self.lost + self.corner.loss(&next),
            corner: next,
        }
    }

    // Both sums together are twice the count.
    fn count(self) -> u64
        requires { self.lost ≤ self.gained }
        ensures { result ≡ (self.gained - self.lost) / 2 }
    {
        (self.gained - self.lost) / 2
    }
}

// A list of corners, of which each can be read where it stands, packed.
trait Corners: Copy {
    ghost keys: { Self → List ℕ };

    ghost readable: { Self → Type 0 };

    // How many there are.
    fn many(self) -> usize
        ensures { result ≡ length (keys self) };

    fn key(self, i: usize) -> u32
        requires { readable self × (i < length (keys self)) }
        ensures { result ≡ get_or (keys self) i 0 };
}

// Corners that are packed.
impl Corners for &[u32] {
    ghost keys = { λ list. list.now };

    ghost readable = { λ list. Unit {0} };

    fn many(self) -> usize {
        self.len()
    }

    fn key(self, i: usize) -> u32 {
        self[i]
    }
}

// Corners as numbers.
impl Corners for &[i32] {
    ghost keys = { λ list. keys_of list.now };

    ghost readable = { λ list. All InRange (points list.now) };

    #[tactic(auto, using(packed::proofs::KeysOf::keys_length))]
    fn many(self) -> usize {
        self.len() / 2
    }

    fn key(self, i: usize) -> u32 {
        packed::key_at(self, i)
    }
}

// How many lattice points their hull has. The first edge comes from the last corner.
#[tactic(auto, using(crate::proofs::Sums::summed))]
fn count_all<C: Corners>(corners: C) -> u64
    requires { C.readable corners × Cornered (C.keys corners) }
    ensures { CountOf (HullOf (C.keys corners)) result }
{
    let many = corners.many();
    if many == 0 {
        return 0;
    }
    let mut edges = Edges::leaving(Corner::of(corners.key(many - 1)));
    for i in 0..many {
        edges = edges.to(Corner::of(corners.key(i)));
    }
    edges.count()
}

// How many lattice points the hull has: of corners that are packed, and of corners where they stand as numbers.
pub fn count(corners: &[u32]) -> u64
    requires { Cornered corners.now }
    ensures { CountOf (HullOf corners.now) result }
{
    count_all(corners)
}

pub fn count_of(corners: &[i32]) -> u64
    requires { Outline corners.now }
    ensures { CountOf (InHull (Of (points corners.now))) result }
{
    count_all(corners)
}
