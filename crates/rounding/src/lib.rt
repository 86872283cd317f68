// Whole-number quotients rounded up, for gains and losses alike.
#![tactic(auto)]

ghost use Rattle.std.specs.Prelude.{◌≡◌, ◌+◌, ◌/◌, ◌%◌, ◌<◌, min};
ghost use Rattle.rounding.specs.Quotient.{AlwaysLeast, RoundedUp, rounded_up};

// n / d, rounded up to the least whole number that is not below it. A quotient by 0 is 0.
pub fn rounded_up(n: i64, d: u64) -> i64
    ensures value { result ≡ rounded_up n d }
    ensures least { 0 < d → RoundedUp n d result }
    ensures always { AlwaysLeast }
{
    always_least();
    if d == 0 {
        return 0;
    }
    quotient(n, d)
}

// Rounded up, a loss moves towards zero and a gain away from it.
fn quotient(n: i64, d: u64) -> i64
    requires { 0 < d }
    ensures value { result ≡ rounded_up n d }
    ensures least { RoundedUp n d result }
{
    let size = n.unsigned_abs();
    if n < 0 {
        times_whole(size, d).wrapping_neg().cast_signed()
    } else {
        times_begun(size, d).cast_signed()
    }
}

fn times_whole(size: u64, d: u64) -> u64
    requires { 0 < d }
    ensures { result ≡ size / d }
{
    size / d
}

// A rest counts as one time more.
fn times_begun(size: u64, d: u64) -> u64
    requires { 0 < d }
    ensures { result ≡ size / d + min 1 (size % d) }
{
    size.div_ceil(d)
}

// What is true of any quotient, also of one too wide for the code.
fn always_least()
    ensures { AlwaysLeast }
{}
