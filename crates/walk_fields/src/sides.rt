// How a field is set: what a list sees on its sides, and whether a symbol is enlarged.

ghost use Rattle.std.specs.Prelude.{◌≡◌};
ghost use Rattle.setting.specs.Setting as definition;
ghost use Rattle.walk_fields.specs.Values.{sides_as};

use arrange::Manner;
use formula::Class;

// The atoms that a list sees before its first and behind its last, though they are not in it.
#[derive(Clone, Copy)]
pub struct Sides {
    pub left: Option<Class>,
    pub right: Option<Class>,
}

const NO_SIDES: Sides = Sides {
    left: None,
    right: None,
};

// Within a fence an Open and a Close (rule 19).
const FENCE_SIDES: Sides = Sides {
    left: Some(Class::Open),
    right: Some(Class::Close),
};

pub fn sides_of(manner: Manner) -> Sides
    ensures { sides_as result ≡ definition.sides_of manner }
{
    match manner {
        Manner::Plain | Manner::Enlarged => NO_SIDES,
        Manner::Fenced => FENCE_SIDES,
    }
}

// Whether a symbol gives way to its successor.
pub(crate) fn is_enlarged(manner: Manner) -> bool
    ensures { result ≡ definition.is_enlarged manner }
{
    manner == Manner::Enlarged
}
