// Single numbers of f64: the larger and the smaller of two, whole numbers below and above, the next
// lower value. Every function has an answer for every f64, a NaN and the infinities too, so that no
// caller has to carry along that its numbers are finite.
#![tactic(auto)]

ghost use Rattle.std.specs.Prelude.{◌≡◌, ◌-◌, ◌^◌, min};
ghost use Rattle.base_floats.specs.Order as Order;
ghost use Rattle.base_floats.specs.Whole as Whole;
ghost use Rattle.base_floats.specs.Next as Next;

// The larger of two numbers, and the first where they are equal. f64's own `max` takes the other where one is a NaN, and of 0 and -0
// may take either: the edges that are told here are fixed to the bit.
#[tactic(auto, unfolding(crate::specs::Order::larger))]
pub fn larger(a: f64, b: f64) -> f64
    ensures { result ≡ Order.larger a b }
{
    if a < b { b } else { a }
}

// The smaller of two numbers, and the first where they are equal; f64's own `min` differs as `max` does. Two functions and not one over
// the order: every caller would hand the order in as a closure.
#[tactic(auto, unfolding(crate::specs::Order::smaller))]
pub fn smaller(a: f64, b: f64) -> f64
    ensures { result ≡ Order.smaller a b }
{
    if b < a { b } else { a }
}

// x rounded down, not below 0 and not above the largest u64: Rust's `x as u64`.
#[tactic(auto, using(crate::proofs::Tests::cast_floor))]
pub fn floor_u64(x: f64) -> u64
    ensures { result ≡ min (Whole.floor x) (2 ^ 64 - 1) }
{
    std::num::saturating_f64_to_u64(x)
}

// x rounded down, not below 0 and not above limit.
pub fn floor_to(x: f64, limit: u32) -> u32
    ensures { result ≡ min (Whole.floor x) limit }
{
    floor_u64(x).min(limit as u64) as u32
}

// x rounded up, not below 0 and not above limit.
pub fn ceil_to(x: f64, limit: u32) -> u32
    ensures { result ≡ min (Whole.ceil x) limit }
{
    let low = floor_to(x, limit);
    let more = f64::from(low) < x;
    if low < limit && more { low + 1 } else { low }
}

// The greatest f64 below y. Minus infinity and a NaN, which have none, are handed back.
#[tactic(auto, using(crate::proofs::LibraryNext::library_next))]
pub fn next_down(y: f64) -> f64
    ensures { result ≡ Next.next_down y }
{
    y.next_down()
}
