// Names written into messages.
ghost use Rattle.std.specs.Prelude.{◌≡◌, ◌+◌, ◌≤◌, IsTrue, Some, length};
ghost use Rattle.pac_names.specs.Labels.{labels_of};
ghost use Rattle.pac_names.specs.Names.{is_lookup_name};
ghost use Rattle.dns_name.specs.Wire.{name_at};
ghost use Rattle.dns_name.specs.Writing.{overwritten, wire_label, wire_name};

use pac_names::{LookupName, split_label};

/// Writes a name at an offset, without pointers (RFC 1035, section 3.1), and gives the offset behind it. All other
/// octets stay. A name takes at most 255 octets.
pub fn write_name(buffer: &mut [u8; 512], at: usize, name: &LookupName) -> usize
    requires { at + 255 ≤ 512 }
    ensures written { buffer.new ≡ overwritten buffer.old at (wire_name name.now.text) }
    ensures behind { result ≡ at + length (wire_name name.now.text) }
    ensures room { result ≤ at + 255 }
    ensures kept { IsTrue (is_lookup_name name.now) }
    ensures read { name_at buffer.new at ≡ Some (record { labels = labels_of name.now.text; behind = result }) }
{
    let mut at = at;
    let mut rest = Some(name.bytes());
    'labels: while let Some(bytes) = rest {
        let (label, others) = split_label(bytes);
        at = write_label(buffer, at, label);
        rest = others;
    }
    buffer[at] = 0;
    at + 1
}

fn write_label(buffer: &mut [u8; 512], at: usize, label: &[u8]) -> usize
    requires room { at + length label.now + 1 ≤ 512 }
    requires short { length label.now ≤ 63 }
    ensures written { buffer.new ≡ overwritten buffer.old at (wire_label label.now) }
    ensures behind { result ≡ at + length label.now + 1 }
{
    buffer[at] = label.len() as u8;
    let behind = at + 1 + label.len();
    buffer[at + 1..behind].copy_from_slice(label);
    behind
}
