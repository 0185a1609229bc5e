// The built-in objects of a fresh heap, as data (ECMA-262 5.1, section 15). A property that this profile leaves out is
// the mark left out with the text by which a fault names it. None is listed.
//
// A native's row has `native!(NUMBER), ""`, and `NATIVES` is one more than the greatest of the numbers. An object that
// has a name below is `Object(NAME), ""`.
use Entry::{LeftOut, Object, Text, Undefined};
use heap_objects::{Entry, TableRow};
use heap_values::{Kind, ObjectId};

/// A built-in object: what it is and its prototype.
#[derive(Clone, Copy)]
pub(crate) struct Blank {
    pub(crate) kind: Kind,
    pub(crate) prototype: Option<ObjectId>,
}

pub(crate) const OBJECT_PROTOTYPE: ObjectId = ObjectId(0);

pub(crate) const FUNCTION_PROTOTYPE: ObjectId = ObjectId(1);

pub(crate) const GLOBAL: ObjectId = ObjectId(2);

pub(crate) const ARRAY_PROTOTYPE: ObjectId = ObjectId(3);

pub(crate) const STRING_PROTOTYPE: ObjectId = ObjectId(4);

pub(crate) const NUMBER_PROTOTYPE: ObjectId = ObjectId(5);

pub(crate) const BOOLEAN_PROTOTYPE: ObjectId = ObjectId(6);

pub(crate) const ERROR_PROTOTYPE: ObjectId = ObjectId(7);

pub(crate) const TYPE_ERROR_PROTOTYPE: ObjectId = ObjectId(8);

pub(crate) const RANGE_ERROR_PROTOTYPE: ObjectId = ObjectId(9);

pub(crate) const REFERENCE_ERROR_PROTOTYPE: ObjectId = ObjectId(10);

pub(crate) const PATTERN_PROTOTYPE: ObjectId = ObjectId(11);

pub(crate) const MATH: ObjectId = ObjectId(12);

pub(crate) const OBJECT: ObjectId = ObjectId(13);

pub(crate) const ARRAY: ObjectId = ObjectId(14);

pub(crate) const STRING: ObjectId = ObjectId(15);

pub(crate) const NUMBER: ObjectId = ObjectId(16);

pub(crate) const BOOLEAN: ObjectId = ObjectId(17);

pub(crate) const ERROR: ObjectId = ObjectId(18);

pub(crate) const TYPE_ERROR: ObjectId = ObjectId(19);

pub(crate) const RANGE_ERROR: ObjectId = ObjectId(20);

pub(crate) const REFERENCE_ERROR: ObjectId = ObjectId(21);

/// How many natives there are: their numbers are those below it.
pub(crate) const NATIVES: u16 = 77;

/// The first native that has no name above. From it on the natives stand behind the objects that have one, in the order
/// of their numbers.
pub(crate) const FIRST_NATIVE: u16 = 10;

/// The object of such a native is the one of its number and so many more.
pub(crate) const OBJECTS_MORE: u32 = 12;

/// What stands in a row whose value is the native of this number, from `FIRST_NATIVE` on.
macro_rules! native {
    ($number:literal) => {
        Object(ObjectId($number + OBJECTS_MORE))
    };
}

/// A built-in object and its properties, in the order of creation.
pub(crate) type TableObject = (Blank, &'static [TableRow]);

// The built-in objects that have a name above, each in the place that its name says, and each prototype before its
// objects. They stand in three parts, since a proof about one constant of all of them takes too many steps.

/// What other prototypes stand on, and the global object.
#[rattlefmt::skip]
pub(crate) const ROOTS: &[TableObject] = &[
    // 0: `Object.prototype`.
    (Blank { kind: Kind::Plain, prototype: None }, OBJECT_PROTOTYPE_ROWS),
    // 1: `Function.prototype`.
    (Blank { kind: Kind::Native(0), prototype: Some(OBJECT_PROTOTYPE) }, FUNCTION_PROTOTYPE_ROWS),
    // 2: the global object.
    (Blank { kind: Kind::Plain, prototype: Some(OBJECT_PROTOTYPE) }, GLOBAL_ROWS),
];

/// The other prototypes.
#[rattlefmt::skip]
pub(crate) const PROTOTYPES: &[TableObject] = &[
    // 3: `Array.prototype`.
    (Blank { kind: Kind::Array, prototype: Some(OBJECT_PROTOTYPE) }, ARRAY_PROTOTYPE_ROWS),
    // 4: `String.prototype`.
    (Blank { kind: Kind::Plain, prototype: Some(OBJECT_PROTOTYPE) }, STRING_PROTOTYPE_ROWS),
    // 5: `Number.prototype`.
    (Blank { kind: Kind::Plain, prototype: Some(OBJECT_PROTOTYPE) }, NUMBER_PROTOTYPE_ROWS),
    // 6: `Boolean.prototype`.
    (Blank { kind: Kind::Plain, prototype: Some(OBJECT_PROTOTYPE) }, BOOLEAN_PROTOTYPE_ROWS),
    // 7: `Error.prototype`.
    (Blank { kind: Kind::Error, prototype: Some(OBJECT_PROTOTYPE) }, ERROR_PROTOTYPE_ROWS),
    // 8: `TypeError.prototype`.
    (Blank { kind: Kind::Error, prototype: Some(ERROR_PROTOTYPE) }, TYPE_ERROR_PROTOTYPE_ROWS),
    // 9: `RangeError.prototype`.
    (Blank { kind: Kind::Error, prototype: Some(ERROR_PROTOTYPE) }, RANGE_ERROR_PROTOTYPE_ROWS),
    // 10: `ReferenceError.prototype`.
    (Blank { kind: Kind::Error, prototype: Some(ERROR_PROTOTYPE) }, REFERENCE_ERROR_PROTOTYPE_ROWS),
    // 11: `RegExp.prototype`.
    (Blank { kind: Kind::Plain, prototype: Some(OBJECT_PROTOTYPE) }, PATTERN_PROTOTYPE_ROWS),
];

/// `Math` and the constructors.
#[rattlefmt::skip]
pub(crate) const CONSTRUCTORS: &[TableObject] = &[
    // 12: `Math`.
    (Blank { kind: Kind::Plain, prototype: Some(OBJECT_PROTOTYPE) }, MATH_ROWS),
    // 13: `Object`.
    (Blank { kind: Kind::Native(1), prototype: Some(FUNCTION_PROTOTYPE) }, OBJECT_ROWS),
    // 14: `Array`.
    (Blank { kind: Kind::Native(2), prototype: Some(FUNCTION_PROTOTYPE) }, ARRAY_ROWS),
    // 15: `String`.
    (Blank { kind: Kind::Native(3), prototype: Some(FUNCTION_PROTOTYPE) }, STRING_ROWS),
    // 16: `Number`.
    (Blank { kind: Kind::Native(4), prototype: Some(FUNCTION_PROTOTYPE) }, NUMBER_ROWS),
    // 17: `Boolean`.
    (Blank { kind: Kind::Native(5), prototype: Some(FUNCTION_PROTOTYPE) }, BOOLEAN_ROWS),
    // 18: `Error`.
    (Blank { kind: Kind::Native(6), prototype: Some(FUNCTION_PROTOTYPE) }, ERROR_ROWS),
    // 19: `TypeError`.
    (Blank { kind: Kind::Native(7), prototype: Some(FUNCTION_PROTOTYPE) }, TYPE_ERROR_ROWS),
    // 20: `RangeError`.
    (Blank { kind: Kind::Native(8), prototype: Some(FUNCTION_PROTOTYPE) }, RANGE_ERROR_ROWS),
    // 21: `ReferenceError`.
    (Blank { kind: Kind::Native(9), prototype: Some(FUNCTION_PROTOTYPE) }, REFERENCE_ERROR_ROWS),
];

#[rattlefmt::skip]
const OBJECT_PROTOTYPE_ROWS: &[TableRow] = &[
    ("constructor", Object(OBJECT), "", true),
    ("toString", native!(11), "", true),
    ("valueOf", native!(12), "", true),
    ("hasOwnProperty", native!(26), "", true),
    ("toLocaleString", LeftOut, "Object.prototype.toLocaleString", true),
    ("isPrototypeOf", LeftOut, "Object.prototype.isPrototypeOf", true),
    ("propertyIsEnumerable", LeftOut, "Object.prototype.propertyIsEnumerable", true),
];

#[rattlefmt::skip]
const FUNCTION_PROTOTYPE_ROWS: &[TableRow] = &[
    ("constructor", LeftOut, "Function", true),
    ("call", LeftOut, "Function.prototype.call", true),
    ("apply", LeftOut, "Function.prototype.apply", true),
    ("bind", LeftOut, "Function.prototype.bind", true),
    ("toString", LeftOut, "Function.prototype.toString", true),
];

// The functions of the proxy format stand first, since a name is looked for row by row and scripts call these most.
#[rattlefmt::skip]
const GLOBAL_ROWS: &[TableRow] = &[
    ("isPlainHostName", native!(13), "", true),
    ("dnsDomainIs", native!(14), "", true),
    ("localHostOrDomainIs", native!(15), "", true),
    ("dnsDomainLevels", native!(16), "", true),
    ("dnsResolve", native!(17), "", true),
    ("isResolvable", native!(18), "", true),
    ("isInNet", native!(19), "", true),
    ("myIpAddress", native!(20), "", true),
    ("shExpMatch", native!(21), "", true),
    ("alert", native!(22), "", true),
    ("weekdayRange", native!(23), "", true),
    ("dateRange", native!(24), "", true),
    ("timeRange", native!(25), "", true),
    ("dnsResolveEx", native!(69), "", true),
    ("isResolvableEx", native!(70), "", true),
    ("isInNetEx", native!(71), "", true),
    ("undefined", Undefined, "", false),
    ("NaN", LeftOut, "NaN", false),
    ("Infinity", LeftOut, "Infinity", false),
    ("eval", LeftOut, "eval", true),
    ("parseInt", native!(49), "", true),
    ("parseFloat", LeftOut, "parseFloat", true),
    ("isNaN", native!(30), "", true),
    ("isFinite", LeftOut, "isFinite", true),
    ("encodeURI", LeftOut, "encodeURI", true),
    ("encodeURIComponent", LeftOut, "encodeURIComponent", true),
    ("decodeURI", LeftOut, "decodeURI", true),
    ("decodeURIComponent", LeftOut, "decodeURIComponent", true),
    ("escape", LeftOut, "escape", true),
    ("unescape", LeftOut, "unescape", true),
    ("Object", Object(OBJECT), "", true),
    ("Function", LeftOut, "Function", true),
    ("Array", Object(ARRAY), "", true),
    ("String", Object(STRING), "", true),
    ("Number", Object(NUMBER), "", true),
    ("Boolean", Object(BOOLEAN), "", true),
    ("Math", Object(MATH), "", true),
    ("Date", LeftOut, "Date", true),
    ("RegExp", LeftOut, "RegExp", true),
    ("JSON", LeftOut, "JSON", true),
    ("Error", Object(ERROR), "", true),
    ("TypeError", Object(TYPE_ERROR), "", true),
    ("RangeError", Object(RANGE_ERROR), "", true),
    ("ReferenceError", Object(REFERENCE_ERROR), "", true),
    ("SyntaxError", LeftOut, "SyntaxError", true),
    ("EvalError", LeftOut, "EvalError", true),
    ("URIError", LeftOut, "URIError", true),
];

#[rattlefmt::skip]
const ARRAY_PROTOTYPE_ROWS: &[TableRow] = &[
    ("constructor", Object(ARRAY), "", true),
    ("push", native!(57), "", true),
    ("pop", native!(58), "", true),
    ("shift", native!(59), "", true),
    ("unshift", native!(60), "", true),
    ("concat", native!(61), "", true),
    ("slice", native!(62), "", true),
    ("splice", native!(63), "", true),
    ("reverse", native!(64), "", true),
    ("indexOf", native!(65), "", true),
    ("lastIndexOf", native!(66), "", true),
    ("join", native!(67), "", true),
    ("toString", native!(68), "", true),
    ("sort", LeftOut, "Array.prototype.sort", true),
    ("forEach", LeftOut, "Array.prototype.forEach", true),
    ("map", LeftOut, "Array.prototype.map", true),
    ("filter", LeftOut, "Array.prototype.filter", true),
    ("some", LeftOut, "Array.prototype.some", true),
    ("every", LeftOut, "Array.prototype.every", true),
    ("reduce", LeftOut, "Array.prototype.reduce", true),
    ("reduceRight", LeftOut, "Array.prototype.reduceRight", true),
    ("toLocaleString", LeftOut, "Array.prototype.toLocaleString", true),
];

#[rattlefmt::skip]
const STRING_PROTOTYPE_ROWS: &[TableRow] = &[
    ("constructor", Object(STRING), "", true),
    ("charAt", native!(34), "", true),
    ("charCodeAt", native!(35), "", true),
    ("substring", native!(43), "", true),
    ("slice", native!(40), "", true),
    ("concat", native!(36), "", true),
    ("toLowerCase", native!(44), "", true),
    ("toUpperCase", native!(46), "", true),
    ("trim", native!(47), "", true),
    ("toString", native!(45), "", true),
    ("valueOf", native!(48), "", true),
    ("substr", native!(42), "", true),
    ("indexOf", native!(37), "", true),
    ("lastIndexOf", native!(38), "", true),
    ("split", native!(41), "", true),
    ("replace", native!(39), "", true),
    ("match", native!(75), "", true),
    ("search", native!(76), "", true),
    ("localeCompare", LeftOut, "String.prototype.localeCompare", true),
    ("toLocaleLowerCase", LeftOut, "String.prototype.toLocaleLowerCase", true),
    ("toLocaleUpperCase", LeftOut, "String.prototype.toLocaleUpperCase", true),
];

#[rattlefmt::skip]
const NUMBER_PROTOTYPE_ROWS: &[TableRow] = &[
    ("constructor", Object(NUMBER), "", true),
    ("toString", native!(50), "", true),
    ("valueOf", native!(31), "", true),
    ("toFixed", LeftOut, "Number.prototype.toFixed", true),
    ("toExponential", LeftOut, "Number.prototype.toExponential", true),
    ("toPrecision", LeftOut, "Number.prototype.toPrecision", true),
    ("toLocaleString", LeftOut, "Number.prototype.toLocaleString", true),
];

#[rattlefmt::skip]
const BOOLEAN_PROTOTYPE_ROWS: &[TableRow] = &[
    ("constructor", Object(BOOLEAN), "", true),
    ("toString", native!(32), "", true),
    ("valueOf", native!(33), "", true),
];

#[rattlefmt::skip]
const ERROR_PROTOTYPE_ROWS: &[TableRow] = &[
    ("constructor", Object(ERROR), "", true),
    ("name", Text, "Error", true),
    ("message", Text, "", true),
    ("toString", native!(10), "", true),
];

#[rattlefmt::skip]
const TYPE_ERROR_PROTOTYPE_ROWS: &[TableRow] = &[
    ("constructor", Object(TYPE_ERROR), "", true),
    ("name", Text, "TypeError", true),
    ("message", Text, "", true),
];

#[rattlefmt::skip]
const RANGE_ERROR_PROTOTYPE_ROWS: &[TableRow] = &[
    ("constructor", Object(RANGE_ERROR), "", true),
    ("name", Text, "RangeError", true),
    ("message", Text, "", true),
];

#[rattlefmt::skip]
const REFERENCE_ERROR_PROTOTYPE_ROWS: &[TableRow] = &[
    ("constructor", Object(REFERENCE_ERROR), "", true),
    ("name", Text, "ReferenceError", true),
    ("message", Text, "", true),
];

#[rattlefmt::skip]
const PATTERN_PROTOTYPE_ROWS: &[TableRow] = &[
    ("constructor", LeftOut, "RegExp", true),
    ("exec", native!(72), "", true),
    ("test", native!(73), "", true),
    ("toString", native!(74), "", true),
];

#[rattlefmt::skip]
const MATH_ROWS: &[TableRow] = &[
    ("E", LeftOut, "Math.E", false),
    ("LN10", LeftOut, "Math.LN10", false),
    ("LN2", LeftOut, "Math.LN2", false),
    ("LOG2E", LeftOut, "Math.LOG2E", false),
    ("LOG10E", LeftOut, "Math.LOG10E", false),
    ("PI", LeftOut, "Math.PI", false),
    ("SQRT1_2", LeftOut, "Math.SQRT1_2", false),
    ("SQRT2", LeftOut, "Math.SQRT2", false),
    ("abs", native!(51), "", true),
    ("acos", LeftOut, "Math.acos", true),
    ("asin", LeftOut, "Math.asin", true),
    ("atan", LeftOut, "Math.atan", true),
    ("atan2", LeftOut, "Math.atan2", true),
    ("ceil", native!(55), "", true),
    ("cos", LeftOut, "Math.cos", true),
    ("exp", LeftOut, "Math.exp", true),
    ("floor", native!(54), "", true),
    ("log", LeftOut, "Math.log", true),
    ("max", native!(52), "", true),
    ("min", native!(53), "", true),
    ("pow", LeftOut, "Math.pow", true),
    ("random", LeftOut, "Math.random", true),
    ("round", native!(56), "", true),
    ("sin", LeftOut, "Math.sin", true),
    ("sqrt", LeftOut, "Math.sqrt", true),
    ("tan", LeftOut, "Math.tan", true),
];

#[rattlefmt::skip]
const OBJECT_ROWS: &[TableRow] = &[
    ("prototype", Object(OBJECT_PROTOTYPE), "", false),
    ("getPrototypeOf", LeftOut, "Object.getPrototypeOf", true),
    ("getOwnPropertyDescriptor", LeftOut, "Object.getOwnPropertyDescriptor", true),
    ("getOwnPropertyNames", LeftOut, "Object.getOwnPropertyNames", true),
    ("create", LeftOut, "Object.create", true),
    ("defineProperty", LeftOut, "Object.defineProperty", true),
    ("defineProperties", LeftOut, "Object.defineProperties", true),
    ("seal", LeftOut, "Object.seal", true),
    ("freeze", LeftOut, "Object.freeze", true),
    ("preventExtensions", LeftOut, "Object.preventExtensions", true),
    ("isSealed", LeftOut, "Object.isSealed", true),
    ("isFrozen", LeftOut, "Object.isFrozen", true),
    ("isExtensible", LeftOut, "Object.isExtensible", true),
    ("keys", native!(27), "", true),
];

#[rattlefmt::skip]
const ARRAY_ROWS: &[TableRow] = &[
    ("prototype", Object(ARRAY_PROTOTYPE), "", false),
    ("isArray", native!(28), "", true),
];

#[rattlefmt::skip]
const STRING_ROWS: &[TableRow] = &[
    ("prototype", Object(STRING_PROTOTYPE), "", false),
    ("fromCharCode", native!(29), "", true),
];

#[rattlefmt::skip]
const NUMBER_ROWS: &[TableRow] = &[
    ("prototype", Object(NUMBER_PROTOTYPE), "", false),
    ("MAX_VALUE", LeftOut, "Number.MAX_VALUE", false),
    ("MIN_VALUE", LeftOut, "Number.MIN_VALUE", false),
    ("NaN", LeftOut, "Number.NaN", false),
    ("NEGATIVE_INFINITY", LeftOut, "Number.NEGATIVE_INFINITY", false),
    ("POSITIVE_INFINITY", LeftOut, "Number.POSITIVE_INFINITY", false),
];

#[rattlefmt::skip]
const BOOLEAN_ROWS: &[TableRow] = &[
    ("prototype", Object(BOOLEAN_PROTOTYPE), "", false),
];

#[rattlefmt::skip]
const ERROR_ROWS: &[TableRow] = &[
    ("prototype", Object(ERROR_PROTOTYPE), "", false),
];

#[rattlefmt::skip]
const TYPE_ERROR_ROWS: &[TableRow] = &[
    ("prototype", Object(TYPE_ERROR_PROTOTYPE), "", false),
];

#[rattlefmt::skip]
const RANGE_ERROR_ROWS: &[TableRow] = &[
    ("prototype", Object(RANGE_ERROR_PROTOTYPE), "", false),
];

#[rattlefmt::skip]
const REFERENCE_ERROR_ROWS: &[TableRow] = &[
    ("prototype", Object(REFERENCE_ERROR_PROTOTYPE), "", false),
];
