// The table of the built-in functions that code runs, in the order of their numbers: the one list of them that code and
// definitions read. A native is a row here, and a function. Behind each row stand its number, by which the table of
// built-in objects names it, and where it is told: its sections of ECMA-262 5.1, or the page on the Netscape Navigator
// Proxy Auto-Config format.
use crate::native::{Conversion, Native, PatternNative, PlainNative};
use crate::native_row::{Called, NativeRow, Taken, Walk};
use Called::{Constructor, Function, Method};
use Conversion::{
    Kept, Number, OptionalPatternOrText, OptionalText, Pattern, PatternOrText, Position, Primitive,
    Replacement, Text, ThisArray, ThisBoolean, ThisNumber, ThisPattern, ThisText,
};
use Taken::{All, AtMost, Listed};
use Walk::{AllElements, Arguments, Elements, Keys, Nothing, Own, Search, Texts, Units, Values};
use array_builtins::ArrayMethod;
use number_builtins::NumberMethod;
use pac_functions::PacFunction;
use text_builtins::TextMethod;

macro_rules! plain {
    ($native:ident) => {
        Native::Plain(PlainNative::$native)
    };
}

macro_rules! pac {
    ($function:ident) => {
        Native::Pac(PacFunction::$function)
    };
}

macro_rules! text {
    ($method:ident) => {
        Native::Plain(PlainNative::TextMethod(TextMethod::$method))
    };
}

macro_rules! pattern {
    ($method:ident) => {
        Native::Pattern(PatternNative::$method)
    };
}

macro_rules! number {
    ($method:ident) => {
        Native::Plain(PlainNative::NumberMethod(NumberMethod::$method))
    };
}

macro_rules! array {
    ($method:ident) => {
        Native::Plain(PlainNative::ArrayMethod(ArrayMethod::$method))
    };
}

/// The rows. A new one stands behind the last, since its place is its number.
#[rattlefmt::skip]
pub const NATIVES: &[NativeRow] = &[
    // `Function.prototype`, the constructors, and what errors and objects inherit.
    (plain!(FunctionPrototype), "Function.prototype", Function, &[], Listed, Nothing), // 0 (15.3.4)
    (plain!(Object), "Object", Constructor, &[Kept], Listed, Nothing), // 1 (15.2.1, 15.2.2)
    (plain!(Array), "Array", Constructor, &[], All(Kept), Nothing), // 2 (15.4.1, 15.4.2)
    (plain!(String), "String", Function, &[Text], AtMost, Nothing), // 3 (15.5.1)
    (plain!(Number), "Number", Function, &[Number], AtMost, Nothing), // 4 (15.7.1)
    (plain!(Boolean), "Boolean", Function, &[Kept], Listed, Nothing), // 5 (15.6.1)
    (plain!(Error), "Error", Constructor, &[OptionalText], Listed, Nothing), // 6 (15.11.1, 15.11.2)
    (plain!(TypeError), "TypeError", Constructor, &[OptionalText], Listed, Nothing), // 7 (15.11.7)
    (plain!(RangeError), "RangeError", Constructor, &[OptionalText], Listed, Nothing), // 8 (15.11.7)
    (plain!(ReferenceError), "ReferenceError", Constructor, &[OptionalText], Listed, Nothing), // 9 (15.11.7)
    (Native::ErrorToString, "Error.prototype.toString", Method(Kept), &[], Listed, Own), // 10 (15.11.4.4)
    (plain!(ObjectToString), "Object.prototype.toString", Method(Kept), &[], Listed, Nothing), // 11 (15.2.4.2)
    (plain!(ObjectValueOf), "Object.prototype.valueOf", Method(Kept), &[], Listed, Nothing), // 12 (15.2.4.4)

    // The functions of the proxy format. The arguments of the ranges stay as they are.
    (pac!(IsPlainHostName), "isPlainHostName", Function, &[Primitive], Listed, Units), // 13 (the page on the proxy format)
    (pac!(DnsDomainIs), "dnsDomainIs", Function, &[Primitive, Primitive], Listed, Units), // 14 (the page on the proxy format)
    (pac!(LocalHostOrDomainIs), "localHostOrDomainIs", Function, &[Primitive, Primitive], Listed, Units), // 15 (the page on the proxy format)
    (pac!(DnsDomainLevels), "dnsDomainLevels", Function, &[Primitive], Listed, Units), // 16 (the page on the proxy format)
    (pac!(DnsResolve), "dnsResolve", Function, &[Primitive], Listed, Units), // 17 (the page on the proxy format)
    (pac!(IsResolvable), "isResolvable", Function, &[Primitive], Listed, Units), // 18 (the page on the proxy format)
    (pac!(IsInNet), "isInNet", Function, &[Primitive, Primitive, Primitive], Listed, Units), // 19 (the page on the proxy format)
    (pac!(MyIpAddress), "myIpAddress", Function, &[], Listed, Nothing), // 20 (the page on the proxy format)
    (pac!(ShExpMatch), "shExpMatch", Function, &[Primitive, Primitive], Listed, Walk::Pattern), // 21 (the page on the proxy format)
    (pac!(Alert), "alert", Function, &[Primitive], Listed, Units), // 22 (the page on the proxy format)
    (pac!(WeekdayRange), "weekdayRange", Function, &[], All(Kept), Nothing), // 23 (the page on the proxy format)
    (pac!(DateRange), "dateRange", Function, &[], All(Kept), Nothing), // 24 (the page on the proxy format)
    (pac!(TimeRange), "timeRange", Function, &[], All(Kept), Nothing), // 25 (the page on the proxy format)

    // Functions beside these that call nothing.
    (plain!(HasOwnProperty), "Object.prototype.hasOwnProperty", Method(Kept), &[Text], Listed, Nothing), // 26 (15.2.4.5)
    (plain!(Keys), "Object.keys", Function, &[Kept], Listed, Keys), // 27 (15.2.3.14)
    (plain!(IsArray), "Array.isArray", Function, &[Kept], Listed, Nothing), // 28 (15.4.3.2)
    (plain!(FromCharCode), "String.fromCharCode", Function, &[], All(Position), Nothing), // 29 (15.5.3.2)
    (plain!(IsNaN), "isNaN", Function, &[Number], Listed, Nothing), // 30 (15.1.2.4)
    (plain!(NumberValueOf), "Number.prototype.valueOf", Method(ThisNumber), &[], Listed, Nothing), // 31 (15.7.4.4)
    (plain!(BooleanToString), "Boolean.prototype.toString", Method(ThisBoolean), &[], Listed, Nothing), // 32 (15.6.4.2)
    (plain!(BooleanValueOf), "Boolean.prototype.valueOf", Method(ThisBoolean), &[], Listed, Nothing), // 33 (15.6.4.3)

    // The methods of texts.
    (text!(CharAt), "String.prototype.charAt", Method(Text), &[Position], Listed, Texts), // 34 (15.5.4.4)
    (text!(CharCodeAt), "String.prototype.charCodeAt", Method(Text), &[Position], Listed, Texts), // 35 (15.5.4.5)
    (text!(Concat), "String.prototype.concat", Method(Text), &[], All(Text), Texts), // 36 (15.5.4.6)
    (text!(IndexOf), "String.prototype.indexOf", Method(Text), &[Text, Position], Listed, Search), // 37 (15.5.4.7)
    (text!(LastIndexOf), "String.prototype.lastIndexOf", Method(Text), &[Text, Number], Listed, Search), // 38 (15.5.4.8)
    (pattern!(Replace), "String.prototype.replace", Method(Text), &[PatternOrText, Replacement], Listed, Search), // 39 (15.5.4.11)
    (text!(Slice), "String.prototype.slice", Method(Text), &[Position, Position], Listed, Texts), // 40 (15.5.4.13)
    (pattern!(Split), "String.prototype.split", Method(Text), &[OptionalPatternOrText, Position], Listed, Search), // 41 (15.5.4.14)
    (text!(Substr), "String.prototype.substr", Method(Text), &[Position, Position], Listed, Texts), // 42 (B.2.3)
    (text!(Substring), "String.prototype.substring", Method(Text), &[Position, Position], Listed, Texts), // 43 (15.5.4.15)
    (text!(ToLowerCase), "String.prototype.toLowerCase", Method(Text), &[], Listed, Texts), // 44 (15.5.4.16)
    (text!(ToString), "String.prototype.toString", Method(ThisText), &[], Listed, Texts), // 45 (15.5.4.2)
    (text!(ToUpperCase), "String.prototype.toUpperCase", Method(Text), &[], Listed, Texts), // 46 (15.5.4.18)
    (text!(Trim), "String.prototype.trim", Method(Text), &[], Listed, Texts), // 47 (15.5.4.20)
    (text!(ValueOf), "String.prototype.valueOf", Method(ThisText), &[], Listed, Texts), // 48 (15.5.4.3)

    // The functions of numbers.
    (number!(ParseInt), "parseInt", Function, &[Text, Position], Listed, Texts), // 49 (15.1.2.2)
    (number!(ToString), "Number.prototype.toString", Method(ThisNumber), &[Position], Listed, Nothing), // 50 (15.7.4.2)
    (number!(Abs), "Math.abs", Function, &[Number], Listed, Values), // 51 (15.8.2.1)
    (number!(Max), "Math.max", Function, &[], All(Number), Values), // 52 (15.8.2.11)
    (number!(Min), "Math.min", Function, &[], All(Number), Values), // 53 (15.8.2.12)
    (number!(Floor), "Math.floor", Function, &[Number], Listed, Values), // 54 (15.8.2.9)
    (number!(Ceil), "Math.ceil", Function, &[Number], Listed, Values), // 55 (15.8.2.6)
    (number!(Round), "Math.round", Function, &[Number], Listed, Values), // 56 (15.8.2.15)

    // The methods of arrays.
    (array!(Push), "Array.prototype.push", Method(ThisArray), &[], All(Kept), Arguments), // 57 (15.4.4.7)
    (array!(Pop), "Array.prototype.pop", Method(ThisArray), &[], All(Kept), Arguments), // 58 (15.4.4.6)
    (array!(Shift), "Array.prototype.shift", Method(ThisArray), &[], All(Kept), Elements), // 59 (15.4.4.9)
    (array!(Unshift), "Array.prototype.unshift", Method(ThisArray), &[], All(Kept), Elements), // 60 (15.4.4.13)
    (array!(Concat), "Array.prototype.concat", Method(ThisArray), &[], All(Kept), AllElements), // 61 (15.4.4.4)
    (array!(Slice), "Array.prototype.slice", Method(ThisArray), &[Position, Position], All(Kept), Elements), // 62 (15.4.4.10)
    (array!(Splice), "Array.prototype.splice", Method(ThisArray), &[Position, Position], All(Kept), Elements), // 63 (15.4.4.12)
    (array!(Reverse), "Array.prototype.reverse", Method(ThisArray), &[], All(Kept), Elements), // 64 (15.4.4.8)
    (array!(IndexOf), "Array.prototype.indexOf", Method(ThisArray), &[Kept, Position], All(Kept), Elements), // 65 (15.4.4.14)
    (array!(LastIndexOf), "Array.prototype.lastIndexOf", Method(ThisArray), &[Kept, Position], All(Kept), Elements), // 66 (15.4.4.15)
    (Native::ArrayJoin, "Array.prototype.join", Method(ThisArray), &[OptionalText], Listed, Own), // 67 (15.4.4.5)
    (Native::ArrayToString, "Array.prototype.toString", Method(ThisArray), &[], Listed, Own), // 68 (15.4.4.2)

    // The functions that ask for addresses of both families, under the names that browsers have.
    (pac!(DnsResolveEx), "dnsResolveEx", Function, &[Primitive], Listed, Units), // 69 (this project's)
    (pac!(IsResolvableEx), "isResolvableEx", Function, &[Primitive], Listed, Units), // 70 (this project's)
    (pac!(IsInNetEx), "isInNetEx", Function, &[Primitive, Primitive], Listed, Units), // 71 (this project's)

    // The methods of patterns, and those of texts that take a pattern alone.
    (pattern!(Exec), "RegExp.prototype.exec", Method(ThisPattern), &[Text], Listed, Nothing), // 72 (15.10.6.2)
    (pattern!(Test), "RegExp.prototype.test", Method(ThisPattern), &[Text], Listed, Nothing), // 73 (15.10.6.3)
    (plain!(PatternToString), "RegExp.prototype.toString", Method(ThisPattern), &[], Listed, Nothing), // 74 (15.10.6.4)
    (pattern!(Match), "String.prototype.match", Method(Text), &[Pattern], Listed, Texts), // 75 (15.5.4.10)
    (pattern!(Search), "String.prototype.search", Method(Text), &[Pattern], Listed, Texts), // 76 (15.5.4.12)
];

/// The row of a native that has none: it would take nothing. Each native has one.
#[rattlefmt::skip]
pub const NO_ROW: &NativeRow = &(plain!(FunctionPrototype), "", Function, &[], Listed, Nothing);
