// The lattice: a point of it, definitions and theory. specs/ is what a reader must believe.
#![tactic(auto)]

// "A point is a pair of signed 32-bit whole numbers, x then y".
#[derive(Clone, Copy, Debug, PartialEq, Eq)]
pub struct Point {
    pub x: i32,
    pub y: i32,
}
