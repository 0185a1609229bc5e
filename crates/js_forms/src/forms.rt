// The forms that scripts have elsewhere and that aren't read here, each with what to write instead: the one list of
// them that code and definitions read. The first row that fits a refusal counts, so a row that fits whatever stands at
// its place comes behind the others of its kind.
use ReadKind::{BadToken, FractionLiteral, TooDeep, Unexpected, Unsupported};
use js_tree::ReadKind;

/// The kind of a refusal; the word or the unit that stands right before its place, and the one that stands there, or
/// nothing where any may; and what is said, in ASCII. (It is a tuple because clauses can't see a constant of a struct
/// that holds references.)
pub type FormRow = (ReadKind, &'static str, &'static str, &'static str);

/// The rows. Sections are those of ECMA-262 edition 5.1, or of edition 6 and later where "later" stands.
#[rattlefmt::skip]
pub const FORMS: &[FormRow] = &[
    // Tokens (7.4, 7.8; later 12.9).
    (BadToken, "", "`", "there are no templates; write a text between quotes, and join its parts by +"),
    (BadToken, "", "\"", "a text has its closing quote in its line, two hexadecimal digits behind \\x and four behind \\u"),
    (BadToken, "", "'", "a text has its closing quote in its line, two hexadecimal digits behind \\x and four behind \\u"),
    (BadToken, "", "/", "a comment ends with */; a regular expression ends with / in its line, closes its brackets, has : behind (?, ranges and counts that run forward, in a class no - behind \\w and its like, and no flags but g, i and m"),
    (BadToken, "", "#", "a comment begins with //"),
    (BadToken, "", "", "that is no token; quotes are ' or \", names have ASCII letters, digits, $ and _, and no number passes 2^53 - 1"),
    (FractionLiteral, "", "", "numbers are whole; write a smaller unit, as minutes in place of hours"),
    (Unsupported, "", "/", "a regular expression has no look-ahead here, no \\c, no octal escape, no letter behind \\ that means nothing, at most 20 groups, and counts to 1000; write it with other parts"),
    (Unsupported, "", "0", "a number has no zero in front; leave it out"),
    (Unsupported, "", "\"", "there are no escapes by digits alone; write \\x and two hexadecimal digits"),
    (Unsupported, "", "'", "there are no escapes by digits alone; write \\x and two hexadecimal digits"),
    // What this language leaves out of statements and expressions (7.6.1.2, 11.1.5, 12.2, 12.10, 12.12, 13).
    (Unsupported, "", "const", "there is no const; write var"),
    (Unsupported, "", "function", "a function stands in no block; write it directly in the script or in the function around it"),
    (Unsupported, "", "get", "there are no getters; write a plain property, or a function"),
    (Unsupported, "", "set", "there are no setters; write a plain property, or a function"),
    (Unsupported, "", "with", "there is no with; write the object before each of its properties"),
    (Unsupported, "", "class", "there are no classes; write objects and functions"),
    (Unsupported, "", "extends", "there are no classes; write objects and functions"),
    (Unsupported, "", "super", "there are no classes; write objects and functions"),
    (Unsupported, "", "enum", "there is no enum; write an object"),
    (Unsupported, "", "import", "there are no modules; write all in one script"),
    (Unsupported, "", "export", "there are no modules; leave the word out"),
    (Unsupported, "", "", "there are no labels; write the inner loop as a function, and return"),
    (TooDeep, "", "", "too much is nested; write one if behind the other, or else if"),
    // What later editions have (later 13.2 to 13.15, 14.2, 14.3, 14.7, 15.1 to 15.8).
    (Unexpected, "let", "", "there is no let; write var"),
    (Unexpected, "async", "", "no function waits; leave async out"),
    (Unexpected, "await", "", "no function waits; leave await out"),
    (Unexpected, "=", ">", "there are no arrow functions; write function (x) { return ..; }"),
    (Unexpected, "(", ")", "there is nothing in these brackets; an arrow function is written function () { return ..; }"),
    (Unexpected, "", "=", "what stands before = can't be written to; a parameter has no value of its own, and an arrow function is written function (x) { return ..; }"),
    (Unexpected, "?", "?", "there is no ??; write ||, or a test for null"),
    (Unexpected, "?", ".", "there is no ?. here; write a test before it"),
    (Unexpected, "*", "*", "there is no **; write a product"),
    (Unexpected, "", ".", "a name stands before a point and behind it; there is no .. to spread a list"),
    (Unexpected, "catch", "", "catch has a name; write catch (e)"),
    (Unexpected, "", "of", "there is no of; write for (var i = 0; i < list.length; i++)"),
    // Slips.
    (Unexpected, "", "return", "return stands in a function; write it in FindProxyForURL"),
    (Unexpected, "", "break", "break stands in a loop or a switch; leave it out"),
    (Unexpected, "", "continue", "continue stands in a loop; leave it out"),
    (Unexpected, "", "else", "else stands behind an if and its one statement; look at the semicolons and braces before it"),
    (Unexpected, "", "default", "default stands in a switch, once"),
    (Unexpected, "", "<", "no tag stands in a script; leave the page out that it came in"),
    (Unexpected, "", ")", "something is missing before the bracket, or it is one too many"),
    (Unexpected, "", "]", "something is missing before the bracket, or it is one too many"),
    (Unexpected, "", "}", "something is missing before the brace, or it is one too many"),
];

/// What is said of any other token.
pub const OTHERWISE: &str =
    "this can't follow what stands before it; a comma, an operator or a bracket may be missing there";

/// What is said of a script that ends too early.
pub const ENDED: &str =
    "the script ends within something; close each brace, bracket and parenthesis";
