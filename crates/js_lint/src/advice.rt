// What to write instead.

/// What to write instead of what a finding names. The words of each stand in `words.rt`.
#[derive(Clone, Copy, Debug, PartialEq, Eq)]
pub enum Advice {
    /// Of a name that nothing declares.
    Undeclared,
    /// Of dates.
    Clock,
    /// Of regular expressions.
    Matching,
    /// Of fractions, not-a-number and infinity.
    WholeNumbers,
    /// Of what `Math` hasn't.
    Arithmetic,
    /// Of random numbers.
    Chance,
    /// Of code that is made of a text.
    Code,
    /// Of texts that are encoded.
    PlainText,
    /// Of JSON.
    ObjectLiteral,
    /// Of kinds of errors.
    PlainError,
    /// Of functions for IPv6 that aren't here.
    OtherFunctions,
    /// Of what browsers put around a page.
    NoBrowser,
    /// Of a console.
    Alert,
    /// Of built-in objects of later editions.
    PlainObject,
    /// Of words of later editions.
    Var,
    /// Of methods that go over an array.
    Loop,
    /// Of methods that go over the names of an object.
    ForIn,
    /// Of what says how properties behave.
    PlainProperty,
    /// Of methods that call a function.
    PlainCall,
    /// Of `startsWith`.
    Front,
    /// Of `endsWith`.
    End,
    /// Of `includes`.
    Within,
    /// Of methods that make a text longer.
    Joined,
    /// Of the kin of `trim`.
    Trim,
    /// Of the kin of `replace`.
    Replace,
    /// Of the kin of `charAt` and `charCodeAt`.
    Units,
    /// Of what a language of people decides.
    PlainLetters,
    /// Of numbers as texts.
    NumberText,
    /// Of `new` before a function that makes no object.
    NoNew,
    /// Of a pattern of `shExpMatch`.
    Pattern,
    /// Of an address or a mask of `isInNet`.
    Quad,
    /// Of a prefix of `isInNetEx`.
    Prefix,
    /// Of a scheme.
    Scheme,
    /// Of a function that may end without a result.
    Return,
}
