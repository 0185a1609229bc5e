// What stands at the front of a text: a token, or white space or a comment.
ghost use Rattle.std.specs.Prelude.{◌≡◌, ◌≤◌, ◌<◌, ◌+◌, true, Ok, IfOk, IfSome, length, reverse};
ghost use Rattle.js_grammar.specs.Reading.{Gives};
ghost use Rattle.utf16_text.specs.Digits.{is_digit};
ghost use Rattle.js_grammar.specs.Units.{first_passes, is_word_part};
ghost use Rattle.js_grammar.specs.Signs as signs;
ghost use Rattle.js_grammar.specs.Tokens as spec;

use crate::numbers::number_at;
use crate::patterns::pattern_at;
use crate::recent::RecentWords;
use crate::signs::sign_at;
use crate::slashes::divides;
use crate::texts::text_at;
use crate::units::{
    begins_digit, begins_with, behind, inline_length, is_word_start, space_length, word_length,
};
use js_tree::{Place, ReadAnswer, ReadKind, Token, TokenKind};
use std::alloc::Global;
use utf16_text::{Memory, is_digit, is_space};

const DOT: u16 = 0x2E;

const DOUBLE_QUOTE: u16 = 0x22;

const SINGLE_QUOTE: u16 = 0x27;

const SLASH: u16 = 0x2F;

const STAR: u16 = 0x2A;

/// A token, or none for white space and comments; and how many units it has.
type Piece = (Option<TokenKind>, usize);

/// How many units there are up to the next `*/`, which is among them.
fn comment_length(units: &[u16]) -> Option<usize>
    ensures value { result ≡ spec.comment_length units.now }
    ensures within { IfSome result (λ n. n ≤ length units.now) }
{
    let mut passed = 0;
    let mut rest = units;
    while let [unit, others @ ..] = rest {
        if *unit == STAR && begins_with(SLASH, others) {
            return Some(passed + 2);
        }
        passed += 1;
        rest = others;
    }
    None
}

fn sign_piece(place: Place, units: &[u16]) -> Result<Piece, ReadAnswer>
    ensures gives { Gives (λ x. x) result (spec.at_place place (spec.sign_piece (signs.sign_at units.now))) }
    ensures within { IfOk result (λ x. (0 < x.1) × (x.1 ≤ length units.now)) }
{
    match sign_at(units) {
        Some((sign, count)) => Ok((Some(TokenKind::Sign(sign)), count)),
        None => Err(ReadAnswer::Refused(ReadKind::BadToken, place)),
    }
}

/// A pattern literal, behind its first slash.
fn pattern_piece(alloc: Global, place: Place, rest: &[u16]) -> Result<Piece, ReadAnswer>
    ensures gives { Gives (λ x. x) result (spec.at_place place (spec.pattern_piece rest.now)) }
    ensures within { IfOk result (λ x. (0 < x.1) × (x.1 ≤ length rest.now + 1)) }
{
    let (literal, count) = pattern_at(alloc, place, rest)?;
    Ok((Some(TokenKind::Pattern(literal)), count + 1))
}

/// At a slash, behind the tokens before it: a comment, a sign where it divides, or a pattern literal.
fn slash_piece(
    alloc: Global,
    place: Place,
    before: &[Token],
    units: &[u16],
) -> Result<Piece, ReadAnswer>
    requires { 0 < length units.now }
    ensures gives { Gives (λ x. x) result (spec.at_place place (spec.slash_piece (spec.divides (reverse before.now)) units.now)) }
    ensures within { IfOk result (λ x. (0 < x.1) × (x.1 ≤ length units.now)) }
{
    let rest = behind(units, 1);
    if begins_with(SLASH, rest) {
        return Ok((None, inline_length(rest) + 1));
    }
    if begins_with(STAR, rest) {
        return match comment_length(behind(units, 2)) {
            Some(count) => Ok((None, count + 2)),
            None => Err(ReadAnswer::Refused(ReadKind::BadToken, place)),
        };
    }
    if divides(before) {
        sign_piece(place, units)
    } else {
        pattern_piece(alloc, place, rest)
    }
}

fn word_piece(alloc: Global, recent: &mut RecentWords, units: &[u16]) -> Result<Piece, Memory>
    requires { first_passes is_word_part units.now ≡ true }
    ensures value { IfOk result (λ x. spec.word_piece units.now ≡ Ok x) }
    ensures within { IfOk result (λ x. (0 < x.1) × (x.1 ≤ length units.now)) }
{
    let count = word_length(units);
    let (word, _) = units.split_at(count);
    let word = recent.text(alloc, word)?;
    Ok((Some(TokenKind::Word(word)), count))
}

fn number_piece(place: Place, units: &[u16]) -> Result<Piece, ReadAnswer>
    requires { first_passes is_digit units.now ≡ true }
    ensures gives { Gives (λ x. x) result (spec.at_place place (spec.number_piece units.now)) }
    ensures within { IfOk result (λ x. (0 < x.1) × (x.1 ≤ length units.now)) }
{
    match number_at(units) {
        Ok((number, count)) => Ok((Some(TokenKind::Number(number)), count)),
        Err(kind) => Err(ReadAnswer::Refused(kind, place)),
    }
}

/// A text, behind its first quote.
fn text_piece(alloc: Global, place: Place, quote: u16, rest: &[u16]) -> Result<Piece, ReadAnswer>
    ensures gives { Gives (λ x. x) result (spec.at_place place (spec.text_piece quote rest.now)) }
    ensures within { IfOk result (λ x. (0 < x.1) × (x.1 ≤ length rest.now + 1)) }
{
    let (text, count) = text_at(alloc, place, quote, rest)?;
    Ok((Some(TokenKind::Text(text)), count + 1))
}

/// What stands at the front, behind the tokens before it. A refusal has the place that is handed in.
#[tactic(auto, unfolding(js_grammar::specs::Tokens::piece_at))]
pub fn piece_at(
    alloc: Global,
    recent: &mut RecentWords,
    place: Place,
    before: &[Token],
    units: &[u16],
) -> Result<Piece, ReadAnswer>
    requires { 0 < length units.now }
    ensures gives { Gives (λ x. x) result (spec.at_place place (spec.piece_at (spec.divides (reverse before.now)) units.now)) }
    ensures within { IfOk result (λ x. (0 < x.1) × (x.1 ≤ length units.now)) }
{
    let unit = units[0];
    let rest = behind(units, 1);
    if is_space(unit) {
        return Ok((None, space_length(rest) + 1));
    }
    if is_word_start(unit) {
        return Ok(word_piece(alloc, recent, units)?);
    }
    if is_digit(unit) {
        return number_piece(place, units);
    }
    if unit == DOT && begins_digit(rest) {
        return Err(ReadAnswer::Refused(ReadKind::FractionLiteral, place));
    }
    if unit == SINGLE_QUOTE || unit == DOUBLE_QUOTE {
        return text_piece(alloc, place, unit, rest);
    }
    if unit == SLASH {
        return slash_piece(alloc, place, before, units);
    }
    sign_piece(place, units)
}
