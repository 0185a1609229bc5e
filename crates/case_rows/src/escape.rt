// Escapes in fields: `\n`, `\r`, `\t`, `\\`, `\x` with two hexadecimal digits and `\u` with four.
use anyhow::{Context, Result, bail, ensure};
use std::alloc::Global;
use utf16_text::Text;

/// What stands at one place of a field: a sign, or the number of a unit or an octet.
#[derive(Clone, Copy)]
enum Piece {
    Sign(char),
    Number(u16),
}

#[derive(Clone, Copy)]
enum Reader {
    Plain,
    BehindSlash,
    /// So many digits are to come, behind those of this value.
    Digits(u8, u32),
}

impl Reader {
    /// Takes a sign, which may end a piece.
    fn take(&mut self, sign: char) -> Result<Option<Piece>> {
        match *self {
            Reader::Plain if sign == '\\' => *self = Reader::BehindSlash,
            Reader::Plain => return Ok(Some(Piece::Sign(sign))),
            Reader::BehindSlash => return self.take_letter(sign),
            Reader::Digits(left, value) => return self.take_digit(left, value, sign),
        }
        Ok(None)
    }

    fn take_letter(&mut self, letter: char) -> Result<Option<Piece>> {
        *self = match letter {
            'x' => Reader::Digits(2, 0),
            'u' => Reader::Digits(4, 0),
            _ => Reader::Plain,
        };
        match letter {
            'x' | 'u' => Ok(None),
            'n' => Ok(Some(Piece::Sign('\n'))),
            'r' => Ok(Some(Piece::Sign('\r'))),
            't' => Ok(Some(Piece::Sign('\t'))),
            '\\' => Ok(Some(Piece::Sign('\\'))),
            _ => bail!("no escape: {letter}"),
        }
    }

    fn take_digit(&mut self, left: u8, value: u32, sign: char) -> Result<Option<Piece>> {
        let digit = sign.to_digit(16).context("a hexadecimal digit")?;
        let value = value.wrapping_mul(16).wrapping_add(digit);
        if left > 1 {
            *self = Reader::Digits(left - 1, value);
            return Ok(None);
        }
        *self = Reader::Plain;
        Ok(Some(Piece::Number(u16::try_from(value)?)))
    }
}

fn pieces(alloc: Global, field: &str) -> Result<Vec<Piece>> {
    let mut reader = Reader::Plain;
    let mut pieces = Vec::new(alloc);
    for sign in field.chars() {
        if let Some(piece) = reader.take(sign)? {
            pieces.push(piece)?;
        }
    }
    ensure!(matches!(reader, Reader::Plain), "an escape is cut");
    Ok(pieces)
}

/// The text that a field writes.
pub fn text(alloc: Global, field: &str) -> Result<Text> {
    let mut units = Vec::new(alloc);
    for piece in pieces(alloc, field)? {
        match piece {
            Piece::Number(unit) => units.push(unit)?,
            Piece::Sign(sign) => units.extend_from_slice(sign.encode_utf16(&mut [0; 2]))?,
        }
    }
    Ok(Text::from_vec(units)?)
}

/// The octets that a field writes, its signs in UTF-8.
pub fn octets(alloc: Global, field: &str) -> Result<Vec<u8>> {
    let mut octets = Vec::new(alloc);
    for piece in pieces(alloc, field)? {
        match piece {
            Piece::Number(octet) => octets.push(u8::try_from(octet)?)?,
            Piece::Sign(sign) => octets.extend_from_slice(
                sign.encode_utf8(&mut [0; 4]).as_bytes(),
            )?,
        }
    }
    Ok(octets)
}

/// A text as a field writes it: its units from 32 to 126 as they are, but `\` twice, and each other one by its number.
pub fn written_text(alloc: Global, text: &Text) -> Result<String> {
    let mut bytes = Vec::new(alloc);
    text.escape_into(alloc, &mut bytes, false)?;
    ascii(alloc, &bytes)
}

/// Octets as a field writes them: those from 32 to 126 as they are, but `\` twice, and each other one by its number,
/// but 10 as `\n`.
pub fn written_octets(alloc: Global, octets: &[u8]) -> Result<String> {
    let mut field = String::new(alloc);
    for octet in octets {
        match *octet {
            b'\\' => field.push_str("\\\\")?,
            b'\n' => field.push_str("\\n")?,
            32..=126 => field.push(char::from(*octet))?,
            _ => field.push_str(format!(in alloc; "\\x{octet:02x}")?.as_str())?,
        }
    }
    Ok(field)
}

fn ascii(alloc: Global, bytes: &[u8]) -> Result<String> {
    Ok(String::from_str(alloc, std::str::from_utf8(bytes)?)?)
}
