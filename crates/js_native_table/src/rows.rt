// The rows of the table of natives.
ghost use Rattle.std.specs.Prelude.{◌≡◌, map, find, option_copied};
ghost use Rattle.js_evaluation.specs.declared.native.Native.TheVariants as native_is;
ghost use Rattle.js_evaluation.specs.NativeTable as spec;

use js_evaluation::{NATIVES, NO_ROW, Native, NativeRow, PatternNative, PlainNative};

/// All rows, in the order of their numbers from 0.
pub fn natives() -> &'static [NativeRow]
    ensures { map spec.row_read result.now ≡ spec.natives }
{
    NATIVES
}

/// The row of a native.
pub fn native_row(native: Native) -> &'static NativeRow
    ensures { spec.row_read result.now ≡ spec.native_row native }
{
    row_among(rows_for(native), native).unwrap_or(no_row())
}

fn no_row() -> &'static NativeRow
    ensures { spec.row_read result.now ≡ spec.no_row }
{
    NO_ROW
}

/// The first of these rows that is a row of the native.
fn row_among(rows: &'static [NativeRow], native: Native) -> Option<&'static NativeRow>
    ensures { option_copied result ≡ find (λ row. spec.is_same row.0 native) rows.now }
{
    rows.iter().find(|row| row.0 == native)
}

/// The rows among which that of a native is looked for: it stands nowhere before the first of its kind. Every call of a
/// native looks for its row, so the rows of other kinds are left out.
fn rows_for(native: Native) -> &'static [NativeRow]
    ensures { spec.row_among (map spec.row_read result.now) native ≡ spec.native_row native }
{
    match native {
        Native::Plain(native) => rows_for_plain(native),
        Native::Pac(_) => &NATIVES[13..],
        Native::Pattern(native) => rows_for_pattern(native),
        Native::ErrorToString => &NATIVES[10..],
        Native::ArrayJoin => &NATIVES[67..],
        Native::ArrayToString => &NATIVES[68..],
    }
}

fn rows_for_pattern(native: PatternNative) -> &'static [NativeRow]
    ensures { spec.row_among (map spec.row_read result.now) (native_is.Pattern native) ≡ spec.native_row (native_is.Pattern native) }
{
    match native {
        PatternNative::Replace => &NATIVES[39..],
        PatternNative::Split => &NATIVES[41..],
        PatternNative::Exec => &NATIVES[72..],
        PatternNative::Test => &NATIVES[73..],
        PatternNative::Match => &NATIVES[75..],
        PatternNative::Search => &NATIVES[76..],
    }
}

fn rows_for_plain(native: PlainNative) -> &'static [NativeRow]
    ensures { spec.row_among (map spec.row_read result.now) (native_is.Plain native) ≡ spec.native_row (native_is.Plain native) }
{
    match native {
        PlainNative::TextMethod(_) => &NATIVES[34..],
        PlainNative::NumberMethod(_) => &NATIVES[49..],
        PlainNative::ArrayMethod(_) => &NATIVES[57..],
        PlainNative::PatternToString => &NATIVES[74..],
        _ => natives(),
    }
}
