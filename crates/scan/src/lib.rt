// The corners of points in row order: a scan up the last and down the first points of the rows, on a stack of packed points.
#![tactic(auto)]

ghost use Rattle.std.specs.Prelude.{◌≡◌, ◌<◌, ◌≤◌, ◌*◌, length};
ghost use Rattle.scan.specs.Scanning.{Pushable, Pushed, RowTo, RowFrom, Rising, Scannable, Climbed, Cornered};

// A stack of points in an array, from `base` to below `top`.
#[derive(Drop)]
struct Stack<'a> {
    points: &'a mut [u32],
    base: usize,
    top: usize,
}

impl Stack<'_> {
    // Pops what does not turn left to k any more, and pushes k. The lowest point stays.
    fn push(&mut self, k: u32)
        requires { Pushable self.old.points.now self.old.base self.old.top k }
        ensures pushed { Pushed self.old.points.now self.old.base self.old.top k self.new.points.now self.new.top }
        ensures same_base { self.new.base ≡ self.old.base }
        ensures same_points { self.new.points.ghost_name ≡ self.old.points.ghost_name }
        ensures same_length { length self.new.points.now ≡ length self.old.points.now }
    {
        while self.base + 1 < self.top
            && !packed::left(self.points[self.top - 2], self.points[self.top - 1], k)
        {
            self.top -= 1;
        }
        self.points[self.top] = k;
        self.top += 1;
    }
}

// The end of the row whose points begin, or go on, at a place; and the begin of the row whose points end there. The points rise, so that one
// bound tells a row from the next; `chunk_by` would ask each point for its row. The two go opposite ways: one function would take each bound, test
// and range as a closure, and would be no plainer.
fn row_end(keys: &[u32], begin: usize) -> usize
    requires { Rising keys.now × (begin < length keys.now) }
    ensures { RowTo keys.now begin result }
{
    let bound = (keys[begin] / packed::SIDE + 1) * packed::SIDE;
    for end in begin + 1..keys.len() {
        if bound <= keys[end] {
            return end;
        }
    }
    keys.len()
}

fn row_begin(keys: &[u32], end: usize) -> usize
    requires { Rising keys.now × (0 < end) × (end ≤ length keys.now) }
    ensures { RowFrom keys.now result end }
{
    let bound = keys[end - 1] / packed::SIDE * packed::SIDE;
    for before in (0..end - 1).rev() {
        if keys[before] < bound {
            return before + 1;
        }
    }
    0
}

// The way up: from the first point over the last points of the rows to the last point. Its top place. A turn goes on where the row ends.
fn climb(keys: &[u32], stack: &mut [u32]) -> usize
    requires { Scannable keys.now stack.old }
    ensures { Climbed keys.now stack.new result }
{
    stack[0] = keys[0];
    let mut way = Stack {
        points: stack,
        base: 0,
        top: 1,
    };
    let mut begin = 1;
    while begin < keys.len() {
        let end = row_end(keys, begin);
        way.push(keys[end - 1]);
        begin = end;
    }
    way.top - 1
}

// The way down, on top of the way up: from the last point over the first points of the rows to the first point. How many corners there are.
fn descend(keys: &[u32], stack: &mut [u32], base: usize) -> usize
    requires { Scannable keys.now stack.old × Climbed keys.now stack.old base }
    ensures { Cornered keys.now stack.new result }
{
    let mut way = Stack {
        points: stack,
        base,
        top: base + 1,
    };
    let mut end = keys.len() - 1;
    while 0 < end {
        let begin = row_begin(keys, end);
        way.push(keys[begin]);
        end = begin;
    }
    way.top - 1
}

// The corners of points in row order, at the front of the stack. How many there are.
pub fn scan(keys: &[u32], stack: &mut [u32]) -> usize
    requires { Rising keys.now × (2 * length keys.now ≤ length stack.old) }
    ensures { Cornered keys.now stack.new result }
{
    match keys.len() {
        0 => 0,
        1 => {
            stack[0] = keys[0];
            1
        }
        _ => {
            let top = climb(keys, stack);
            descend(keys, stack, top)
        }
    }
}
