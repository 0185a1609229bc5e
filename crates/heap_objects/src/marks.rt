// The marks of a property.
ghost use Rattle.std.specs.Prelude.{◌≡◌};
ghost use Rattle.heap_objects.specs.Object.{marks_of as marks_in};

use heap_values::Property;

/// What a property allows (ECMA-262 5.1, section 8.6.1).
#[derive(Clone, Copy, Drop)]
pub struct Marks {
    /// Whether `for`-`in` lists it.
    pub listed: bool,
    /// Whether `delete` takes it away.
    pub deletable: bool,
}

pub(crate) fn marks_of(property: &Property) -> Marks
    ensures { result ≡ marks_in property.now }
{
    Marks {
        listed: property.listed,
        deletable: property.deletable,
    }
}
