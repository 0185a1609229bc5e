// Reserved words.
ghost use Rattle.std.specs.Prelude.{◌≡◌, find};
ghost use Rattle.js_grammar.specs.Words as spec;
ghost use Rattle.js_lexer.specs.Keywords.{keywords_from};

use js_tree::Keyword;

/// The reserved words that begin with this unit, in the order of the alphabet.
fn keywords_from(unit: u16) -> &'static [Keyword]
    ensures { result.now ≡ keywords_from unit }
{
    let Ok(letter) = u8::try_from(unit) else {
        return &[];
    };
    match letter {
        b'b' => &[Keyword::Break],
        b'c' => &[
            Keyword::Case,
            Keyword::Catch,
            Keyword::Class,
            Keyword::Const,
            Keyword::Continue,
        ],
        b'd' => &[
            Keyword::Debugger,
            Keyword::Default,
            Keyword::Delete,
            Keyword::Do,
        ],
        b'e' => &[
            Keyword::Else,
            Keyword::Enum,
            Keyword::Export,
            Keyword::Extends,
        ],
        b'f' => &[
            Keyword::False,
            Keyword::Finally,
            Keyword::For,
            Keyword::Function,
        ],
        b'i' => &[
            Keyword::If,
            Keyword::Import,
            Keyword::In,
            Keyword::InstanceOf,
        ],
        b'n' => &[Keyword::New, Keyword::Null],
        b'r' => &[Keyword::Return],
        b's' => &[Keyword::Super, Keyword::Switch],
        b't' => &[
            Keyword::This,
            Keyword::Throw,
            Keyword::True,
            Keyword::Try,
            Keyword::TypeOf,
        ],
        b'v' => &[Keyword::Var, Keyword::Void],
        b'w' => &[Keyword::While, Keyword::With],
        _ => &[],
    }
}

/// How a reserved word is spelled (ECMA-262 5.1, section 7.6.1).
pub fn keyword_spelling(keyword: Keyword) -> &'static str
    ensures { result.now ≡ spec.keyword_spelling keyword }
{
    match keyword {
        Keyword::Break => "break",
        Keyword::Case => "case",
        Keyword::Catch => "catch",
        Keyword::Class => "class",
        Keyword::Const => "const",
        Keyword::Continue => "continue",
        Keyword::Debugger => "debugger",
        Keyword::Default => "default",
        Keyword::Delete => "delete",
        Keyword::Do => "do",
        Keyword::Else => "else",
        Keyword::Enum => "enum",
        Keyword::Export => "export",
        Keyword::Extends => "extends",
        Keyword::False => "false",
        Keyword::Finally => "finally",
        Keyword::For => "for",
        Keyword::Function => "function",
        Keyword::If => "if",
        Keyword::Import => "import",
        Keyword::In => "in",
        Keyword::InstanceOf => "instanceof",
        Keyword::New => "new",
        Keyword::Null => "null",
        Keyword::Return => "return",
        Keyword::Super => "super",
        Keyword::Switch => "switch",
        Keyword::This => "this",
        Keyword::Throw => "throw",
        Keyword::True => "true",
        Keyword::Try => "try",
        Keyword::TypeOf => "typeof",
        Keyword::Var => "var",
        Keyword::Void => "void",
        Keyword::While => "while",
        Keyword::With => "with",
    }
}

/// Whether the units are those of an ASCII text.
pub fn is_spelled(units: &[u16], ascii: &str) -> bool
    ensures { result ≡ spec.same units.now ascii.now }
{
    let mut left = units;
    let mut right = ascii.as_bytes();
    loop {
        match (left, right) {
            ([], []) => return true,
            ([unit, units @ ..], [byte, bytes @ ..]) if *unit == u16::from(*byte) => {
                left = units;
                right = bytes;
            }
            _ => return false,
        }
    }
}

/// The first of these words that the units spell, or none.
fn keyword_among(keywords: &[Keyword], units: &[u16]) -> Option<Keyword>
    ensures { result ≡ find (λ k. spec.same units.now (spec.keyword_spelling k)) keywords.now }
{
    keywords
        .iter()
        .copied()
        .find(|keyword| is_spelled(units, keyword_spelling(*keyword)))
}

/// The reserved word that these units spell, or none (ECMA-262 5.1, section 7.6.1).
pub fn keyword_of(units: &[u16]) -> Option<Keyword>
    ensures { result ≡ spec.keyword_of units.now }
{
    let [first, ..] = units else {
        return None;
    };
    keyword_among(keywords_from(*first), units)
}
