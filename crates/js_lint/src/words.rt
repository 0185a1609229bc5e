// The words of each advice.
ghost use Rattle.std.specs.Prelude.{◌≡◌, map};
ghost use Rattle.js_lint.specs.Advice as spec;

use crate::Advice;

/// An advice and its words. (It is a tuple because clauses can't see a constant of a struct that holds references.)
pub(crate) type AdviceRow = (Advice, &'static str);

/// The words of each advice, in ASCII.
#[rattlefmt::skip]
pub(crate) const WORDS: &[AdviceRow] = &[
    (Advice::Undeclared, "nothing of this name is declared or built in"),
    (Advice::Clock, "there are no dates; weekdayRange, dateRange and timeRange ask the clock"),
    (Advice::Matching, "a regular expression stands between slashes, as /^www[.]/; test, exec, match and replace take it"),
    (Advice::WholeNumbers, "numbers are whole, up to 2^53 - 1; parseInt and isNaN are there"),
    (Advice::Arithmetic, "Math has abs, ceil, floor, max, min and round; numbers are whole"),
    (Advice::Chance, "there is no chance; choose by the host, as by host.charCodeAt(0) % 2"),
    (Advice::Code, "no code is made of a text; write it as a function"),
    (Advice::PlainText, "texts aren't encoded or decoded; compare them as they are"),
    (Advice::ObjectLiteral, "write an object literal"),
    (Advice::PlainError, "write Error(message)"),
    (Advice::OtherFunctions, "for IPv6 there are dnsResolveEx, isResolvableEx and isInNetEx; myIpAddress is for IPv4"),
    (Advice::NoBrowser, "there is no browser around a script; leave it out"),
    (Advice::Alert, "write alert(text)"),
    (Advice::PlainObject, "later editions aren't here; write an object or an array"),
    (Advice::Var, "write var and function"),
    (Advice::Loop, "write a for loop over the indexes"),
    (Advice::ForIn, "write a for-in loop over the names"),
    (Advice::PlainProperty, "read and write the property itself"),
    (Advice::PlainCall, "call the function by its name"),
    (Advice::Front, "write text.substring(0, part.length) == part"),
    (Advice::End, "write dnsDomainIs(text, part)"),
    (Advice::Within, "write text.indexOf(part) >= 0"),
    (Advice::Joined, "write + or join"),
    (Advice::Trim, "write trim()"),
    (Advice::Replace, "write split(part).join(text)"),
    (Advice::Units, "write charAt, charCodeAt, String.fromCharCode or an index"),
    (Advice::PlainLetters, "write toLowerCase, toUpperCase, toString or <"),
    (Advice::NumberText, "write String(number)"),
    (Advice::NoNew, "call it without new; it makes no object"),
    (Advice::Pattern, "only * and ? are special in a pattern; join patterns by ||"),
    (Advice::Quad, "address and mask of a net are dotted quads, as 10.0.0.0 and 255.0.0.0"),
    (Advice::Prefix, "a prefix is an address, / and how many bits count, as 10.0.0.0/8 or 2001:db8::/32"),
    (Advice::Scheme, "a URL begins with http, https, ws, wss or ftp, in lower case"),
    (Advice::Return, "it may end without a result; let each way through it end in return and a value"),
];

impl Advice {
    /// What to write instead, in ASCII.
    pub fn text(self) -> &'static str
        ensures { result.now ≡ spec.advice_text self }
    {
        words_among(words(), self)
    }
}

fn words() -> &'static [AdviceRow]
    ensures { map spec.row_read result.now ≡ spec.rows }
{
    WORDS
}

/// The words of the first of these rows that is one of this advice; none where there is no such row.
fn words_among(rows: &'static [AdviceRow], advice: Advice) -> &'static str
    ensures { result.now ≡ spec.words_among (map spec.row_read rows.now) advice }
{
    let mut left = rows;
    while let [row, rest @ ..] = left {
        if row.0 == advice {
            return row.1;
        }
        left = rest;
    }
    ""
}
