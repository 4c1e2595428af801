// Words as wider numbers. Kept beside `u64::from` and `as`: the bound is promised with the value, and sums of products cite it.
ghost use Rattle.std.specs.Prelude.{◌≡◌, ◌^◌, ◌<◌};

// A word as a u64.
pub fn wide(x: u32) -> u64
    ensures { (result ≡ x) × (result < 2 ^ 32) }
{
    x as u64
}

// A word as a usize.
pub fn wide_usize(x: u32) -> usize
    ensures { result ≡ x }
{
    x as usize
}
