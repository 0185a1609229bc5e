// The built-in objects that every heap has.

/// A built-in object that the layers above ask for (ECMA-262 5.1, section 15).
#[derive(Clone, Copy, Debug, PartialEq, Eq)]
pub enum BuiltIn {
    /// The global object.
    Global,
    ObjectPrototype,
    FunctionPrototype,
    ArrayPrototype,
    /// `String.prototype`.
    TextPrototype,
    NumberPrototype,
    BooleanPrototype,
    ErrorPrototype,
    TypeErrorPrototype,
    RangeErrorPrototype,
    ReferenceErrorPrototype,
    /// `RegExp.prototype`.
    PatternPrototype,
}
