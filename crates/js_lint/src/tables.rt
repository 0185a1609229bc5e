// What is known of names: the tables that code and definition read alike.
//
// What is here and what the standard has beside it stands in `docs/LANGUAGE.md`, "Built-in objects", after ECMA-262
// edition 5.1, section 15. What later editions add is that of edition 15 (2024), sections 19 to 28; what browsers add for
// IPv6 is that of Microsoft's page "IPv6 Extensions to Navigator Auto-Config File Format".
use crate::Advice;
use crate::standing::Standing;
use Advice::{
    Alert, Arithmetic, Chance, Clock, Code, End, ForIn, Front, Joined, Loop, Matching, NoBrowser,
    NumberText, ObjectLiteral, OtherFunctions, PlainCall, PlainError, PlainLetters, PlainObject,
    PlainProperty, PlainText, Replace, Trim, Units, Var, WholeNumbers, Within,
};
use Standing::{Constructor, Here, Missing};

/// A name and what is known of it. (It is a tuple because clauses can't see a constant of a struct that holds
/// references.)
pub(crate) type NameRow = (&'static str, Standing);

/// A global object, the name of a property of it that isn't here, and what to write instead.
pub(crate) type MemberRow = (&'static str, &'static str, Advice);

/// The global names. One that has no row isn't built in anywhere.
#[rattlefmt::skip]
pub(crate) const GLOBALS: &[NameRow] = &[
    // The functions of the proxy format.
    ("isPlainHostName", Here),
    ("dnsDomainIs", Here),
    ("localHostOrDomainIs", Here),
    ("dnsDomainLevels", Here),
    ("dnsResolve", Here),
    ("isResolvable", Here),
    ("isInNet", Here),
    ("myIpAddress", Here),
    ("shExpMatch", Here),
    ("alert", Here),
    ("weekdayRange", Here),
    ("dateRange", Here),
    ("timeRange", Here),
    ("dnsResolveEx", Here),
    ("isResolvableEx", Here),
    ("isInNetEx", Here),

    // The other names of the global object, and those that it inherits (15.1, 15.2.4).
    ("undefined", Here),
    ("parseInt", Here),
    ("isNaN", Here),
    ("String", Here),
    ("Number", Here),
    ("Boolean", Here),
    ("Math", Here),
    ("Object", Constructor),
    ("Array", Constructor),
    ("Error", Constructor),
    ("TypeError", Constructor),
    ("RangeError", Constructor),
    ("ReferenceError", Constructor),
    ("hasOwnProperty", Here),
    ("toString", Here),
    ("valueOf", Here),
    ("constructor", Constructor),
    ("toLocaleString", Missing(PlainLetters)),
    ("isPrototypeOf", Missing(PlainProperty)),
    ("propertyIsEnumerable", Missing(PlainProperty)),

    // What the standard has on the global object and this language leaves out (15.1).
    ("NaN", Missing(WholeNumbers)),
    ("Infinity", Missing(WholeNumbers)),
    ("parseFloat", Missing(WholeNumbers)),
    ("isFinite", Missing(WholeNumbers)),
    ("eval", Missing(Code)),
    ("Function", Missing(Code)),
    ("Date", Missing(Clock)),
    ("RegExp", Missing(Matching)),
    ("JSON", Missing(ObjectLiteral)),
    ("encodeURI", Missing(PlainText)),
    ("encodeURIComponent", Missing(PlainText)),
    ("decodeURI", Missing(PlainText)),
    ("decodeURIComponent", Missing(PlainText)),
    ("escape", Missing(PlainText)),
    ("unescape", Missing(PlainText)),
    ("SyntaxError", Missing(PlainError)),
    ("EvalError", Missing(PlainError)),
    ("URIError", Missing(PlainError)),

    // What browsers add to the format besides.
    ("myIpAddressEx", Missing(OtherFunctions)),
    ("sortIpAddressList", Missing(OtherFunctions)),
    ("getClientVersion", Missing(OtherFunctions)),

    // What browsers have around a page.
    ("console", Missing(Alert)),
    ("window", Missing(NoBrowser)),
    ("document", Missing(NoBrowser)),
    ("navigator", Missing(NoBrowser)),
    ("location", Missing(NoBrowser)),
    ("self", Missing(NoBrowser)),
    ("setTimeout", Missing(NoBrowser)),
    ("setInterval", Missing(NoBrowser)),
    ("XMLHttpRequest", Missing(NoBrowser)),
    ("fetch", Missing(NoBrowser)),
    ("ActiveXObject", Missing(NoBrowser)),

    // What later editions of the standard add.
    ("globalThis", Missing(PlainObject)),
    ("Map", Missing(PlainObject)),
    ("Set", Missing(PlainObject)),
    ("WeakMap", Missing(PlainObject)),
    ("WeakSet", Missing(PlainObject)),
    ("WeakRef", Missing(PlainObject)),
    ("Symbol", Missing(PlainObject)),
    ("Promise", Missing(PlainObject)),
    ("Proxy", Missing(PlainObject)),
    ("Reflect", Missing(PlainObject)),
    ("BigInt", Missing(PlainObject)),
    ("Intl", Missing(PlainObject)),
    ("Atomics", Missing(PlainObject)),
    ("AggregateError", Missing(PlainObject)),
    ("ArrayBuffer", Missing(PlainObject)),
    ("SharedArrayBuffer", Missing(PlainObject)),
    ("DataView", Missing(PlainObject)),
    ("Int8Array", Missing(PlainObject)),
    ("Uint8Array", Missing(PlainObject)),
    ("Uint8ClampedArray", Missing(PlainObject)),
    ("Int16Array", Missing(PlainObject)),
    ("Uint16Array", Missing(PlainObject)),
    ("Int32Array", Missing(PlainObject)),
    ("Uint32Array", Missing(PlainObject)),
    ("Float32Array", Missing(PlainObject)),
    ("Float64Array", Missing(PlainObject)),
    ("BigInt64Array", Missing(PlainObject)),
    ("BigUint64Array", Missing(PlainObject)),
    ("let", Missing(Var)),
];

/// Properties of any object by their names, which no object of this language has by itself.
#[rattlefmt::skip]
pub(crate) const MEMBERS: &[NameRow] = &[
    // What the standard has on objects and functions (15.2.4, 15.3.4).
    ("isPrototypeOf", Missing(PlainProperty)),
    ("propertyIsEnumerable", Missing(PlainProperty)),
    ("toLocaleString", Missing(PlainLetters)),
    ("call", Missing(PlainCall)),
    ("apply", Missing(PlainCall)),
    ("bind", Missing(PlainCall)),
    ("callee", Missing(PlainCall)),
    ("caller", Missing(PlainCall)),

    // On arrays (15.4.4).
    ("sort", Missing(Loop)),
    ("forEach", Missing(Loop)),
    ("map", Missing(Loop)),
    ("filter", Missing(Loop)),
    ("some", Missing(Loop)),
    ("every", Missing(Loop)),
    ("reduce", Missing(Loop)),
    ("reduceRight", Missing(Loop)),

    // On texts and numbers (15.5.4, 15.7.4).
    ("localeCompare", Missing(PlainLetters)),
    ("toLocaleLowerCase", Missing(PlainLetters)),
    ("toLocaleUpperCase", Missing(PlainLetters)),
    ("toFixed", Missing(NumberText)),
    ("toExponential", Missing(NumberText)),
    ("toPrecision", Missing(NumberText)),

    // On dates (15.9.5).
    ("getDay", Missing(Clock)),
    ("getDate", Missing(Clock)),
    ("getMonth", Missing(Clock)),
    ("getYear", Missing(Clock)),
    ("getFullYear", Missing(Clock)),
    ("getHours", Missing(Clock)),
    ("getMinutes", Missing(Clock)),
    ("getSeconds", Missing(Clock)),
    ("getMilliseconds", Missing(Clock)),
    ("getTime", Missing(Clock)),
    ("getTimezoneOffset", Missing(Clock)),
    ("getUTCDay", Missing(Clock)),
    ("getUTCDate", Missing(Clock)),
    ("getUTCMonth", Missing(Clock)),
    ("getUTCFullYear", Missing(Clock)),
    ("getUTCHours", Missing(Clock)),
    ("getUTCMinutes", Missing(Clock)),
    ("getUTCSeconds", Missing(Clock)),
    ("getUTCMilliseconds", Missing(Clock)),
    ("toISOString", Missing(Clock)),
    ("toUTCString", Missing(Clock)),
    ("toGMTString", Missing(Clock)),
    ("toDateString", Missing(Clock)),
    ("toTimeString", Missing(Clock)),

    // What later editions add to objects (edition 15, B.2.2).
    ("__proto__", Missing(PlainProperty)),
    ("__defineGetter__", Missing(PlainProperty)),
    ("__defineSetter__", Missing(PlainProperty)),
    ("__lookupGetter__", Missing(PlainProperty)),
    ("__lookupSetter__", Missing(PlainProperty)),

    // What later editions add to texts.
    ("startsWith", Missing(Front)),
    ("endsWith", Missing(End)),
    ("includes", Missing(Within)),
    ("repeat", Missing(Joined)),
    ("padStart", Missing(Joined)),
    ("padEnd", Missing(Joined)),
    ("trimStart", Missing(Trim)),
    ("trimEnd", Missing(Trim)),
    ("trimLeft", Missing(Trim)),
    ("trimRight", Missing(Trim)),
    ("replaceAll", Missing(Replace)),
    ("matchAll", Missing(Matching)),
    ("at", Missing(Units)),
    ("codePointAt", Missing(Units)),
    ("normalize", Missing(PlainText)),

    // And to arrays.
    ("find", Missing(Loop)),
    ("findIndex", Missing(Loop)),
    ("findLast", Missing(Loop)),
    ("findLastIndex", Missing(Loop)),
    ("fill", Missing(Loop)),
    ("copyWithin", Missing(Loop)),
    ("flat", Missing(Loop)),
    ("flatMap", Missing(Loop)),
    ("toReversed", Missing(Loop)),
    ("toSorted", Missing(Loop)),
    ("toSpliced", Missing(Loop)),
];

/// Properties of global objects that aren't here.
#[rattlefmt::skip]
pub(crate) const OBJECT_MEMBERS: &[MemberRow] = &[
    // What the standard has on `Math` (15.8).
    ("Math", "random", Chance),
    ("Math", "E", Arithmetic),
    ("Math", "LN10", Arithmetic),
    ("Math", "LN2", Arithmetic),
    ("Math", "LOG2E", Arithmetic),
    ("Math", "LOG10E", Arithmetic),
    ("Math", "PI", Arithmetic),
    ("Math", "SQRT1_2", Arithmetic),
    ("Math", "SQRT2", Arithmetic),
    ("Math", "acos", Arithmetic),
    ("Math", "asin", Arithmetic),
    ("Math", "atan", Arithmetic),
    ("Math", "atan2", Arithmetic),
    ("Math", "cos", Arithmetic),
    ("Math", "exp", Arithmetic),
    ("Math", "log", Arithmetic),
    ("Math", "pow", Arithmetic),
    ("Math", "sin", Arithmetic),
    ("Math", "sqrt", Arithmetic),
    ("Math", "tan", Arithmetic),

    // On `Number` (15.7.3).
    ("Number", "MAX_VALUE", WholeNumbers),
    ("Number", "MIN_VALUE", WholeNumbers),
    ("Number", "NaN", WholeNumbers),
    ("Number", "NEGATIVE_INFINITY", WholeNumbers),
    ("Number", "POSITIVE_INFINITY", WholeNumbers),

    // On `Object` (15.2.3).
    ("Object", "create", PlainProperty),
    ("Object", "defineProperty", PlainProperty),
    ("Object", "defineProperties", PlainProperty),
    ("Object", "freeze", PlainProperty),
    ("Object", "seal", PlainProperty),
    ("Object", "preventExtensions", PlainProperty),
    ("Object", "isFrozen", PlainProperty),
    ("Object", "isSealed", PlainProperty),
    ("Object", "isExtensible", PlainProperty),
    ("Object", "getPrototypeOf", PlainProperty),
    ("Object", "getOwnPropertyDescriptor", PlainProperty),
    ("Object", "getOwnPropertyNames", ForIn),

    // What later editions add to `Math`.
    ("Math", "trunc", Arithmetic),
    ("Math", "sign", Arithmetic),
    ("Math", "cbrt", Arithmetic),
    ("Math", "log2", Arithmetic),
    ("Math", "log10", Arithmetic),
    ("Math", "log1p", Arithmetic),
    ("Math", "expm1", Arithmetic),
    ("Math", "cosh", Arithmetic),
    ("Math", "sinh", Arithmetic),
    ("Math", "tanh", Arithmetic),
    ("Math", "acosh", Arithmetic),
    ("Math", "asinh", Arithmetic),
    ("Math", "atanh", Arithmetic),
    ("Math", "hypot", Arithmetic),
    ("Math", "fround", Arithmetic),
    ("Math", "imul", Arithmetic),
    ("Math", "clz32", Arithmetic),

    // To `Number`.
    ("Number", "EPSILON", WholeNumbers),
    ("Number", "MAX_SAFE_INTEGER", WholeNumbers),
    ("Number", "MIN_SAFE_INTEGER", WholeNumbers),
    ("Number", "isFinite", WholeNumbers),
    ("Number", "isInteger", WholeNumbers),
    ("Number", "isNaN", WholeNumbers),
    ("Number", "isSafeInteger", WholeNumbers),
    ("Number", "parseFloat", WholeNumbers),
    ("Number", "parseInt", WholeNumbers),

    // To `Object`.
    ("Object", "assign", ForIn),
    ("Object", "entries", ForIn),
    ("Object", "values", ForIn),
    ("Object", "fromEntries", ForIn),
    ("Object", "groupBy", ForIn),
    ("Object", "is", PlainProperty),
    ("Object", "hasOwn", PlainProperty),
    ("Object", "setPrototypeOf", PlainProperty),
    ("Object", "getOwnPropertyDescriptors", PlainProperty),
    ("Object", "getOwnPropertySymbols", PlainProperty),

    // To `Array` and `String`.
    ("Array", "from", Loop),
    ("Array", "of", Loop),
    ("String", "fromCodePoint", Units),
    ("String", "raw", Joined),
];
