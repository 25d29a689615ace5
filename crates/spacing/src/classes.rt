// The class of an item and its change.
ghost use Rattle.std.specs.Prelude.{◌≡◌, ◌||◌};
ghost use Rattle.spacing.specs.Classes.{base_class, class_of, opens_operand, closes_operand, bin_changed, changed_class};
ghost use Rattle.spacing.specs.Values.{neighbour_as};

use formula::{Base, Class, Kind};

// Fractions count as Inner (rule 15e).
pub fn class_of(kind: Kind) -> Class
    ensures { result ≡ class_of kind }
{
    match kind {
        Kind::Scripted(base) => base_class(base),
        Kind::Fraction(_) => Class::Inner,
    }
}

// Lines and roots count as Ord (rule 16), fences as Inner (rule 19).
fn base_class(base: Base) -> Class
    ensures { result ≡ base_class base }
{
    match base {
        Base::Atom(class, _) => class,
        Base::Over | Base::Under | Base::Root(_) => Class::Ord,
        Base::Fence(_, _) => Class::Inner,
    }
}

// The class of an atom between its left neighbour, after its change, and its right one, before it. Neighbours are the nearest atoms, where the
// list has one to that side.
#[tactic(auto, unfolding(crate::specs::Classes::changed_class))]
pub fn changed_class(left: Option<Class>, class: Class, right: Option<Class>) -> Class
    ensures { result ≡ changed_class (neighbour_as left) class (neighbour_as right) }
{
    match class {
        Class::Bin if opens_operand(left) || closes_operand(right) => Class::Ord,
        _ => class,
    }
}

// Rule 5: behind what a Bin becomes Ord.
fn opens_operand(left: Option<Class>) -> bool
    ensures { result ≡ opens_operand (neighbour_as left) }
{
    match left {
        None => true,
        Some(class) => matches!(
            class,
            Class::Op | Class::Bin | Class::Rel | Class::Open | Class::Punct
        ),
    }
}

// Rule 6: before what a Bin becomes Ord.
fn closes_operand(right: Option<Class>) -> bool
    ensures { result ≡ closes_operand (neighbour_as right) }
{
    match right {
        None => true,
        Some(class) => matches!(class, Class::Rel | Class::Close | Class::Punct),
    }
}
