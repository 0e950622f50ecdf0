// What the parts of a bitmap share: white space, and how a pixel's point is written.
#![tactic(auto)]

ghost use Rattle.std.specs.Prelude.{◌≡◌, ◌+◌, ◌*◌, ◌^◌, ◌<◌, length, set, pos};
ghost use Rattle.netpbm.specs.Space.{white_space};

pub fn white_space(b: u8) -> bool
    ensures { result ≡ white_space b }
{
    // By `matches!`, LLVM spends four instructions more on each pixel.
    b == b' ' || b == b'\t' || b == b'\n' || b == b'\r'
}

// The point of column x and row y, at place n of a list.
pub fn put(list: &mut [i32], n: usize, x: usize, y: usize)
    requires { (2 * n + 1 < length list.old) × (x < 2 ^ 31) × (y < 2 ^ 31) }
    ensures { list.new ≡ set (set list.old (2 * n) (pos x)) (2 * n + 1) (pos y) }
{
    list[2 * n] = x as i32;
    list[2 * n + 1] = y as i32;
}
