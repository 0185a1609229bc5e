// Escapes at their edges, each written and read again.
use case_rows::{octets, text, written_octets, written_text};
use std::test::Fail;
use utf16_text::Text;

#[test]
fn what_is_written_is_read(rt: HostRuntime) -> Result<(), Fail> {
    let alloc = rt.alloc();
    let units = [
        0, 9, 10, 31, 32, 39, 92, 126, 127, 255, 0x20ac, 0xd83d, 0xde00, 0xdfff, 0xffff,
    ];
    let all = Text::from_units(alloc, &units)?;
    let field = written_text(alloc, &all)?;
    assert_eq!(rt;
        field.as_str(),
        "\\u0000\\u0009\\u000a\\u001f '\\\\~\\u007f\\u00ff\\u20ac\\ud83d\\ude00\\udfff\\uffff"
    );
    assert!(rt; text(alloc, field.as_str())?.equals(&all));
    let bytes = [0, 9, 10, 31, 32, 92, 126, 127, 255];
    let field = written_octets(alloc, &bytes)?;
    assert_eq!(rt; field.as_str(), "\\x00\\x09\\n\\x1f \\\\~\\x7f\\xff");
    assert_eq!(rt; octets(alloc, field.as_str())?.as_slice(), bytes.as_slice());
    Ok(())
}

#[test]
fn fields_have_escapes(rt: HostRuntime) -> Result<(), Fail> {
    let alloc = rt.alloc();
    let read = text(alloc, "a\\n\\r\\t\\\\\\x7f\\ufeff\u{1f600}")?;
    let units = [97, 10, 13, 9, 92, 127, 0xfeff, 0xd83d, 0xde00];
    assert_eq!(rt; read.units(), units.as_slice());
    assert_eq!(rt;
        octets(alloc, "\u{e9}\\xc0")?.as_slice(),
        [0xc3, 0xa9, 0xc0].as_slice()
    );
    for field in ["\\", "\\q", "\\x1", "\\x1g", "\\u123"] {
        assert!(rt; text(alloc, field).is_err(), "{field}");
        assert!(rt; octets(alloc, field).is_err(), "{field}");
    }
    assert!(rt; octets(alloc, "\\u0100").is_err());
    Ok(())
}
