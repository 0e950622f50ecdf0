// Figures: the centroid of a list of points, and its solidity.
#![tactic(auto)]

ghost use Rattle.std.specs.Prelude.{◌≡◌, ◌<◌, ◌≤◌, length};
ghost use Rattle.lattice.specs.Point.{points};
ghost use Rattle.figures.specs.Quotient.{exact, rounded};
ghost use Rattle.figures.specs.Figure.{coordinate as coordinate_of, sum as sum_of, centroid_of, Solidity, Summable, Outlines};
ghost use Rattle.figures.specs.Figures.{FiguresPromise};

// The centroid of a grain.
#[derive(Clone, Copy)]
pub struct Centroid {
    pub x: f64,
    pub y: f64,
}

// What Figures answers: a refusal, none for the empty list, or the doubles. Not a Result of an Option: document 01 names this form, "an enum
// whose accepted case carries the centroid and the solidity double".
#[derive(Clone, Copy)]
pub enum Figured {
    Refused { number: u32, place: usize },
    None,
    Given { centroid: Centroid, solidity: f64 },
}

// The sum of one coordinate over the points of a list: of x for 0, of y for 1.
fn sum(list: &[i32], coordinate: usize) -> i32
    requires { Summable list.now × (coordinate < 2) }
    ensures { result ≡ sum_of (coordinate_of coordinate) (points list.now) }
{
    let mut total: i32 = 0;
    for pair in range::pairs(list) {
        total += pair[coordinate];
    }
    total
}

// One whole number divided by another. Both casts are exact, so this rounds once.
fn quotient(a: i32, b: u64) -> f64
    requires { (0 < b) × (b ≤ exact) }
    ensures { result ≡ rounded a b }
{
    a as f64 / b as f64
}

// The mean of one coordinate.
fn mean(list: &[i32], coordinate: usize) -> f64
    requires { Summable list.now × (coordinate < 2) }
    ensures { result ≡ rounded (sum_of (coordinate_of coordinate) (points list.now)) (length (points list.now)) }
{
    let n = list.len() / 2;
    quotient(sum(list, coordinate), n as u64)
}

// Both means.
fn centroid_of(list: &[i32]) -> Centroid
    requires { Summable list.now }
    ensures { result ≡ centroid_of (points list.now) }
{
    Centroid {
        x: mean(list, 0),
        y: mean(list, 1),
    }
}

// How many of the lattice points in the hull are points of the list.
fn solidity_of(list: &[i32], corners: &[i32]) -> f64
    requires { Summable list.now × Outlines (points list.now) corners.now }
    ensures { Solidity (points list.now) result }
{
    let n = list.len() / 2;
    let lattice = pick::count_of(corners);
    quotient(n as i32, lattice)
}

// The centroid of a list of points and its solidity; points in row order and corners, each at the front of its room.
pub fn figures(list: &[i32], ordered: &mut [i32], corners: &mut [i32]) -> Figured
    ensures { FiguresPromise list.now ordered.old corners.old result ordered.new corners.new }
{
    match hull::hull(list, ordered, corners) {
        Err(refusal) => Figured::Refused {
            number: refusal.number(),
            place: refusal.place(),
        },
        Ok(counts) if counts.points == 0 => Figured::None,
        Ok(counts) => Figured::Given {
            centroid: centroid_of(list),
            solidity: solidity_of(list, &corners[..2 * counts.corners]),
        },
    }
}
