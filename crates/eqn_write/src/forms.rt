// Which items the reader makes, by their kind.

ghost use Rattle.std.specs.Prelude.{◌≡◌};
ghost use Rattle.eqn_meaning.specs.Writing.{form_of};
ghost use Rattle.eqn_write.specs.Values.{form_as};

use formula::{Bar, Base, Class, Kind, Limits};

// An atom of a class, an operator with limits, a fraction with a bar, or an item that the reader does not make.
#[derive(Clone, Copy)]
pub enum ItemForm {
    PlainAtom(Class),
    Operator,
    Barred,
    Unmade,
}

pub fn form_of(kind: Kind) -> ItemForm
    ensures { form_as result ≡ form_of kind }
{
    match kind {
        Kind::Scripted(Base::Atom(class, Limits::DisplayOnly)) => ItemForm::PlainAtom(class),
        Kind::Scripted(Base::Atom(Class::Op, Limits::Always)) => ItemForm::Operator,
        Kind::Fraction(Bar::Default) => ItemForm::Barred,
        _ => ItemForm::Unmade,
    }
}
