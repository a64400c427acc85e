// The affine of the drawing command at an offset, read where it stands: the command itself is not built. It equals what the
// command of `strip_format::command_at` answers.
#![tactic(auto)]

ghost use Rattle.std.specs.Prelude.{◌≡◌, true, false, Some};
ghost use Rattle.display_list_commands.specs.Bounds as Bounds;
ghost use Rattle.strip_format.specs.Format.{command_at};
ghost use Rattle.strip_command_bounds.specs.Kinds.{kind_at, whole_byte_at};

use kurbo_affine::Affine;
use strip_format::Kind;

// The kind of the command that stands whole at an offset, if one does.
pub fn kind_at(s: &[u8], at: usize) -> Option<Kind>
    ensures { result ≡ kind_at s.now at }
{
    let kind = Kind::try_from(*s.get(at)?).ok()?;
    (kind.length() <= s.len() - at).then_some(kind)
}

// The byte of what stands whole at an offset, else 0: also a byte that no command has, of which `kind_at` knows no kind.
pub fn whole_byte_at(s: &[u8], at: usize) -> u8
    ensures { result ≡ whole_byte_at s.now at }
{
    if s.len() <= at {
        return 0;
    }
    let byte = s[at];
    if s.len() - at < strip_format::length_of(byte) {
        return 0;
    }
    byte
}

// Whether a command of this kind stands whole at an offset. Where the kind is a constant of the caller it compiles to one comparison of the byte,
// and `kind_at(..) == Some(kind)` to several.
pub fn stands(s: &[u8], at: usize, kind: Kind) -> bool
    ensures whole { result ≡ true → kind_at s.now at ≡ Some kind }
    ensures else_not { result ≡ false → kind_at s.now at ≡ Some kind → ⊥ }
{
    if s.len() <= at {
        return false;
    }
    Kind::try_from(s[at]) == Ok(kind) && kind.length() <= s.len() - at
}

// What stands for an affine where no drawing command stands whole. No Option: who calls knows that one
// stands there, and would have to take it apart.
const NONE: Affine = Affine {
    a: 0.0,
    b: 0.0,
    c: 0.0,
    d: 0.0,
    e: 0.0,
    f: 0.0,
};

pub fn transform_at(s: &[u8], at: usize) -> Affine
    ensures { result ≡ Bounds.transform_of (command_at s.now at) }
{
    let Some(kind) = kind_at(s, at) else {
        return NONE;
    };
    match kind {
        Kind::Fill | Kind::Stroke | Kind::Run | Kind::Scene => {
            strip_format::affine_inside(s, strip_format::affine_offset(at, kind))
        }
        _ => NONE,
    }
}
