// Writing addresses.
ghost use Rattle.std.specs.Prelude.{◌≡◌, ◌≤◌, ◌<◌, ◌+◌, ◌*◌, ◌++◌, ◌∷◌, Some, length, take, drop};
ghost use Rattle.std.specs.Char.{digit_char};
ghost use Rattle.arrayvec.specs.ArrayVec.{array_vec_len};
ghost use Rattle.pac_ext.specs.Reading.{ipv6_of};
ghost use Rattle.pac_ext.specs.Writing.{behind_colons, between_colons, digit_above, group_text, ipv6_text, shortened};

use crate::group::groups_of;
use crate::row::{Row, longest_row};
use arrayvec::ArrayVec;

/// The longest text of an address: eight groups of four digits, and seven colons.
pub const LONGEST: usize = 39;

/// Writes the plain spelling of an address to the front of a buffer; gives its length. Digits are in lower case and
/// without leading zeros, and the first longest row of two zero groups or more is `::` (RFC 5952, section 4).
pub fn write6(address: u128, out: &mut [u8; LONGEST]) -> usize
    ensures text { take result out.new ≡ ipv6_text address }
    ensures rest { drop result out.new ≡ drop result out.old }
    ensures within { result ≤ LONGEST }
    ensures read_back { ipv6_of (take result out.new) ≡ Some address }
{
    let text = text_of(address);
    let length = text.len();
    out[..length].copy_from_slice(text.as_slice());
    length
}

fn text_of(address: u128) -> ArrayVec<u8, LONGEST>
    ensures { result.items ≡ ipv6_text address }
{
    let groups = groups_of(address);
    let row = longest_row(&groups);
    let mut text = ArrayVec::new();
    if row.length < 2 {
        push_groups(&mut text, &groups);
    } else {
        push_shortened(&mut text, &groups, row);
    }
    text
}

// Appends groups with `::` in place of a row.
fn push_shortened(text: &mut ArrayVec<u8, LONGEST>, groups: &[u16], row: Row)
    requires room { array_vec_len text.old + 5 * length groups.now ≤ LONGEST + 1 }
    requires within { row.start + row.length ≤ length groups.now }
    requires some { 2 ≤ row.length }
    ensures { text.new.items ≡ text.old.items ++ shortened groups.now row }
{
    let (head, rest) = groups.split_at(row.start);
    let (_zeros, tail) = rest.split_at(row.length);
    push_groups(text, head);
    text.push(b':');
    text.push(b':');
    push_groups(text, tail);
}

// Appends groups with colons between them.
fn push_groups(text: &mut ArrayVec<u8, LONGEST>, groups: &[u16])
    requires { array_vec_len text.old + 5 * length groups.now ≤ LONGEST + 1 }
    ensures items { text.new.items ≡ text.old.items ++ between_colons groups.now }
    ensures room { array_vec_len text.new ≤ array_vec_len text.old + 5 * length groups.now }
{
    if let [first, others @ ..] = groups {
        push_group(text, *first);
        push_behind(text, others);
    }
}

// Appends groups with a colon before each.
fn push_behind(text: &mut ArrayVec<u8, LONGEST>, groups: &[u16])
    requires { array_vec_len text.old + 5 * length groups.now ≤ LONGEST }
    ensures items { text.new.items ≡ text.old.items ++ behind_colons groups.now }
    ensures room { array_vec_len text.new ≤ array_vec_len text.old + 5 * length groups.now }
{
    for group in groups {
        text.push(b':');
        push_group(text, *group);
    }
}

// Appends a group's digits, without leading zeros.
fn push_group(text: &mut ArrayVec<u8, LONGEST>, group: u16)
    requires { array_vec_len text.old + 4 ≤ LONGEST }
    ensures items { text.new.items ≡ text.old.items ++ group_text group }
    ensures room { array_vec_len text.new ≤ array_vec_len text.old + 4 }
{
    push_digit(text, group, 4096);
    push_digit(text, group, 256);
    push_digit(text, group, 16);
    text.push(digit_of(group % 16));
}

// Appends the digit of a group that counts units of so much, where the group is as large as one.
fn push_digit(text: &mut ArrayVec<u8, LONGEST>, group: u16, unit: u16)
    requires room { array_vec_len text.old < LONGEST }
    requires some { 0 < unit }
    ensures items { text.new.items ≡ text.old.items ++ digit_above unit group }
    ensures room { array_vec_len text.new ≤ array_vec_len text.old + 1 }
{
    if group >= unit {
        text.push(digit_of(group / unit % 16));
    }
}

fn digit_of(value: u16) -> u8
    requires { value < 16 }
    ensures { result ≡ digit_char value }
{
    if value < 10 {
        b'0' + value as u8
    } else {
        b'a' - 10 + value as u8
    }
}
