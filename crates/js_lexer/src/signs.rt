// Signs (ECMA-262 5.1, section 7.7). Each function below has the units behind the first, which it is named for.
ghost use Rattle.std.specs.Prelude.{◌≡◌, ◌<◌, ◌≤◌, ◌+◌, ◌∷◌, IfSome, Some, length};
ghost use Rattle.js_grammar.specs.Signs.{sign_at};

use js_tree::Sign;

fn exclamation(rest: &[u16]) -> (Sign, usize)
    ensures value { sign_at (33 ∷ rest.now) ≡ Some result }
    ensures within { (0 < result.1) × (result.1 ≤ length rest.now + 1) }
{
    match rest {
        [0x3D, 0x3D, ..] => (Sign::StrictNotEqual, 3),
        [0x3D, ..] => (Sign::NotEqual, 2),
        _ => (Sign::Exclamation, 1),
    }
}

fn percent(rest: &[u16]) -> (Sign, usize)
    ensures value { sign_at (37 ∷ rest.now) ≡ Some result }
    ensures within { (0 < result.1) × (result.1 ≤ length rest.now + 1) }
{
    match rest {
        [0x3D, ..] => (Sign::PercentAssign, 2),
        _ => (Sign::Percent, 1),
    }
}

fn ampersand(rest: &[u16]) -> (Sign, usize)
    ensures value { sign_at (38 ∷ rest.now) ≡ Some result }
    ensures within { (0 < result.1) × (result.1 ≤ length rest.now + 1) }
{
    match rest {
        [0x26, ..] => (Sign::AndAnd, 2),
        [0x3D, ..] => (Sign::AmpersandAssign, 2),
        _ => (Sign::Ampersand, 1),
    }
}

fn star(rest: &[u16]) -> (Sign, usize)
    ensures value { sign_at (42 ∷ rest.now) ≡ Some result }
    ensures within { (0 < result.1) × (result.1 ≤ length rest.now + 1) }
{
    match rest {
        [0x3D, ..] => (Sign::StarAssign, 2),
        _ => (Sign::Star, 1),
    }
}

fn plus(rest: &[u16]) -> (Sign, usize)
    ensures value { sign_at (43 ∷ rest.now) ≡ Some result }
    ensures within { (0 < result.1) × (result.1 ≤ length rest.now + 1) }
{
    match rest {
        [0x2B, ..] => (Sign::PlusPlus, 2),
        [0x3D, ..] => (Sign::PlusAssign, 2),
        _ => (Sign::Plus, 1),
    }
}

fn minus(rest: &[u16]) -> (Sign, usize)
    ensures value { sign_at (45 ∷ rest.now) ≡ Some result }
    ensures within { (0 < result.1) × (result.1 ≤ length rest.now + 1) }
{
    match rest {
        [0x2D, ..] => (Sign::MinusMinus, 2),
        [0x3D, ..] => (Sign::MinusAssign, 2),
        _ => (Sign::Minus, 1),
    }
}

fn slash(rest: &[u16]) -> (Sign, usize)
    ensures value { sign_at (47 ∷ rest.now) ≡ Some result }
    ensures within { (0 < result.1) × (result.1 ≤ length rest.now + 1) }
{
    match rest {
        [0x3D, ..] => (Sign::SlashAssign, 2),
        _ => (Sign::Slash, 1),
    }
}

fn less(rest: &[u16]) -> (Sign, usize)
    ensures value { sign_at (60 ∷ rest.now) ≡ Some result }
    ensures within { (0 < result.1) × (result.1 ≤ length rest.now + 1) }
{
    match rest {
        [0x3C, 0x3D, ..] => (Sign::ShiftLeftAssign, 3),
        [0x3C, ..] => (Sign::ShiftLeft, 2),
        [0x3D, ..] => (Sign::LessEqual, 2),
        _ => (Sign::Less, 1),
    }
}

fn equals(rest: &[u16]) -> (Sign, usize)
    ensures value { sign_at (61 ∷ rest.now) ≡ Some result }
    ensures within { (0 < result.1) × (result.1 ≤ length rest.now + 1) }
{
    match rest {
        [0x3D, 0x3D, ..] => (Sign::StrictEqual, 3),
        [0x3D, ..] => (Sign::Equal, 2),
        _ => (Sign::Assign, 1),
    }
}

fn greater(rest: &[u16]) -> (Sign, usize)
    ensures value { sign_at (62 ∷ rest.now) ≡ Some result }
    ensures within { (0 < result.1) × (result.1 ≤ length rest.now + 1) }
{
    match rest {
        [0x3E, 0x3E, 0x3D, ..] => (Sign::UnsignedShiftRightAssign, 4),
        [0x3E, 0x3E, ..] => (Sign::UnsignedShiftRight, 3),
        [0x3E, 0x3D, ..] => (Sign::ShiftRightAssign, 3),
        [0x3E, ..] => (Sign::ShiftRight, 2),
        [0x3D, ..] => (Sign::GreaterEqual, 2),
        _ => (Sign::Greater, 1),
    }
}

fn caret(rest: &[u16]) -> (Sign, usize)
    ensures value { sign_at (94 ∷ rest.now) ≡ Some result }
    ensures within { (0 < result.1) × (result.1 ≤ length rest.now + 1) }
{
    match rest {
        [0x3D, ..] => (Sign::CaretAssign, 2),
        _ => (Sign::Caret, 1),
    }
}

fn bar(rest: &[u16]) -> (Sign, usize)
    ensures value { sign_at (124 ∷ rest.now) ≡ Some result }
    ensures within { (0 < result.1) × (result.1 ≤ length rest.now + 1) }
{
    match rest {
        [0x7C, ..] => (Sign::OrOr, 2),
        [0x3D, ..] => (Sign::BarAssign, 2),
        _ => (Sign::Bar, 1),
    }
}

/// The longest sign at the front, and how many units it has; None where no sign begins there.
pub fn sign_at(units: &[u16]) -> Option<(Sign, usize)>
    ensures value { result ≡ sign_at units.now }
    ensures within { IfSome result (λ x. (0 < x.1) × (x.1 ≤ length units.now)) }
{
    let [unit, rest @ ..] = units else {
        return None;
    };
    match *unit {
        0x21 => Some(exclamation(rest)),
        0x25 => Some(percent(rest)),
        0x26 => Some(ampersand(rest)),
        0x28 => Some((Sign::LeftParenthesis, 1)),
        0x29 => Some((Sign::RightParenthesis, 1)),
        0x2A => Some(star(rest)),
        0x2B => Some(plus(rest)),
        0x2C => Some((Sign::Comma, 1)),
        0x2D => Some(minus(rest)),
        0x2E => Some((Sign::Dot, 1)),
        0x2F => Some(slash(rest)),
        0x3A => Some((Sign::Colon, 1)),
        0x3B => Some((Sign::Semicolon, 1)),
        0x3C => Some(less(rest)),
        0x3D => Some(equals(rest)),
        0x3E => Some(greater(rest)),
        0x3F => Some((Sign::Question, 1)),
        0x5B => Some((Sign::LeftBracket, 1)),
        0x5D => Some((Sign::RightBracket, 1)),
        0x5E => Some(caret(rest)),
        0x7B => Some((Sign::LeftBrace, 1)),
        0x7C => Some(bar(rest)),
        0x7D => Some((Sign::RightBrace, 1)),
        0x7E => Some((Sign::Tilde, 1)),
        _ => None,
    }
}
