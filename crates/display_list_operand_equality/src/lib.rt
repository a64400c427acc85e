// Operands of draw commands compared as dew's `DrawCommand::eq` does: numbers as they are, floats by value.
#![tactic(auto)]

ghost use Rattle.std.specs.Prelude.{◌≡◌};
ghost use Rattle.display_list_operand_equality.specs.Operands as Operands;

use display_list_commands::Stroke;

#[tactic(auto, using(crate::proofs::Strokes::stroke_told))]
pub fn stroke_eq(stroke: Stroke, other: Stroke) -> bool
    ensures { result ≡ Operands.same_stroke stroke other }
{
    stroke == other
}

// Whether two sizes have the same bits. What is equal by value is no NaN, so its bits are known.
#[tactic(auto, unfolding(crate::specs::Operands::same_bits), using(crate::proofs::Bits::eq_right))]
pub fn same_bits(a: f32, b: f32) -> bool
    ensures { result ≡ Operands.same_bits a b }
{
    a == b && f32::to_bits(a) == f32::to_bits(b)
}
