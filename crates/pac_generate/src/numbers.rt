// The numbers that a seed gives.
ghost use Rattle.std.specs.Prelude.{◌≡◌, ◌<◌, ◌^◌};
ghost use Rattle.pac_generate.specs.Numbers.{next_number, upper_bits};

/// The number behind this one.
pub(crate) fn next_number(x: u32) -> u32
    ensures { result ≡ next_number x }
{
    ((u64::from(x) * 1_664_525 + 1_013_904_223) % 4_294_967_296) as u32
}

/// The upper 16 bits.
pub(crate) fn upper_bits(x: u32) -> u32
    ensures value { result ≡ upper_bits x }
    ensures small { result < 2 ^ 16 }
{
    x / 65_536
}
