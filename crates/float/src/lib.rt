// 32-bit floats as patterns: which are set aside, their sum and mean, and their order.
#![tactic(auto)]

ghost use Rattle.std.specs.Prelude.{◌≡◌};
ghost use Rattle.float.specs.Patterns.{aside, rank_of};
ghost use Rattle.float.specs.Running.{running_of, none, more, finish};

// The sum of some floats in their order, and their number. The paper's form: a running struct by value.
#[derive(Clone, Copy)]
pub struct FloatSum {
    pub sum: f32,
    pub count: u8,
}

// Whether all exponent bits are set. By the bits, as the paper says it, and not `is_finite`: so no operation on floats is reached by a NaN.
pub fn is_aside(x: u32) -> bool
    ensures { result ≡ aside x }
{
    x / 8388608 % 256 == 255
}

// -0.0 + v is v, so the first one starts the sum; 0.0 + v would lose the sign of -0.
pub fn no_sum() -> FloatSum
    ensures { running_of result ≡ none }
{
    FloatSum {
        sum: -0.0,
        count: 0,
    }
}

// One pattern more, unless it is set aside or the sum is full.
pub fn add(s: FloatSum, x: u32) -> FloatSum
    ensures { running_of result ≡ more (running_of s) x }
{
    if is_aside(x) | (8 <= s.count) {
        return s;
    }
    let v = f32::from_bits(x);
    FloatSum {
        sum: s.sum + v,
        count: s.count + 1,
    }
}

// The pattern of the sum divided by the number of its patterns, where that is finite.
pub fn divide(s: FloatSum) -> Option<u32>
    ensures { result ≡ finish (running_of s) }
{
    if s.count == 0 {
        return None;
    }
    let q = s.sum / (s.count as f32);
    // Not `is_finite`: it takes the quotient from itself, which makes a NaN of an infinite one and leaves the processor's flag of an invalid operation set.
    if q.is_nan() {
        return None;
    }
    let pattern = q.to_bits();
    if is_aside(pattern) {
        return None;
    }
    Some(pattern)
}

// The rank of a pattern in the order of numbers.
pub fn rank_of(x: u32) -> i64
    ensures { result ≡ rank_of x }
{
    if x < 2147483648 {
        return x as i64;
    }
    2147483648 - x as i64
}
