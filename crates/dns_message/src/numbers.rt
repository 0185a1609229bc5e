// Numbers in messages, the high octet first (RFC 1035, section 2.3.2).
ghost use Rattle.std.specs.Prelude.{◌≡◌, ◌+◌, ◌≤◌, length};
ghost use Rattle.byteorder.specs.Endian.{big_bytes};
ghost use Rattle.dns_name.specs.Writing.{overwritten};
ghost use Rattle.dns_message.specs.Numbers.{address6_at, address_at, number_at, number_octets};

use byteorder::{BigEndian, ByteOrder};

pub(crate) fn read_u16(message: &[u8], at: usize) -> u16
    requires { at + 2 ≤ length message.now }
    ensures { result ≡ number_at message.now at }
{
    BigEndian::read_u16(&message[at..])
}

pub(crate) fn read_u32(message: &[u8], at: usize) -> u32
    requires { at + 4 ≤ length message.now }
    ensures { result ≡ address_at message.now at }
{
    BigEndian::read_u32(&message[at..])
}

pub(crate) fn read_u128(message: &[u8], at: usize) -> u128
    requires { at + 16 ≤ length message.now }
    ensures { result ≡ address6_at message.now at }
{
    BigEndian::read_u128(&message[at..])
}

/// Writes 16 bits at an offset, and gives the offset behind them.
pub(crate) fn write_u16(buffer: &mut [u8; 512], at: usize, number: u16) -> usize
    requires { at + 2 ≤ 512 }
    ensures written { buffer.new ≡ overwritten buffer.old at (number_octets number) }
    ensures behind { result ≡ at + 2 }
{
    BigEndian::write_u16(&mut buffer[at..], number);
    at + 2
}

/// Writes 32 bits at an offset, and gives the offset behind them.
pub(crate) fn write_u32(buffer: &mut [u8; 512], at: usize, number: u32) -> usize
    requires { at + 4 ≤ 512 }
    ensures written { buffer.new ≡ overwritten buffer.old at (big_bytes 4 number) }
    ensures behind { result ≡ at + 4 }
{
    BigEndian::write_u32(&mut buffer[at..], number);
    at + 4
}

/// Writes 128 bits at an offset, and gives the offset behind them.
pub(crate) fn write_u128(buffer: &mut [u8; 512], at: usize, number: u128) -> usize
    requires { at + 16 ≤ 512 }
    ensures written { buffer.new ≡ overwritten buffer.old at (big_bytes 16 number) }
    ensures behind { result ≡ at + 16 }
{
    BigEndian::write_u128(&mut buffer[at..], number);
    at + 16
}
