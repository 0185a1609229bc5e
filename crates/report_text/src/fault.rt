// Faults, as a report names them.
ghost use Rattle.std.specs.Prelude.{◌≡◌};
ghost use Rattle.report_text.specs.Report as spec;

use js_interp::FaultCode;

/// The number of a fault and its name.
pub(crate) fn fault_name(code: FaultCode) -> &'static str
    ensures { result.now ≡ spec.fault_name code }
{
    match code {
        FaultCode::FuelSpent => "F1 FuelSpent",
        FaultCode::TooDeep => "F2 TooDeep",
        FaultCode::TooManyNames => "F3 TooManyNames",
        FaultCode::StringTooLong => "F4 StringTooLong",
        FaultCode::TextSpent => "F5 TextSpent",
        FaultCode::ArrayTooLong => "F6 ArrayTooLong",
        FaultCode::HeapFull => "F7 HeapFull",
        FaultCode::NumberRange => "F8 NumberRange",
        FaultCode::Fraction => "F9 Fraction",
        FaultCode::NotANumber => "F10 NotANumber",
        FaultCode::DivisionByZero => "F11 DivisionByZero",
        FaultCode::Unsupported => "F12 Unsupported",
        FaultCode::Uncaught => "F13 Uncaught",
        FaultCode::NoEntry => "F14 NoEntry",
        FaultCode::NotAString => "F15 NotAString",
    }
}

/// Whether a fault of this kind has a detail.
pub(crate) fn has_detail(code: FaultCode) -> bool
    ensures { result ≡ spec.has_detail code }
{
    matches!(code, FaultCode::Unsupported | FaultCode::Uncaught)
}
