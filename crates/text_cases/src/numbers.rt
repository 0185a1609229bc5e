// Worked values. Conversions are those of ECMA-262 5.1, sections 9.5 and 9.6, remainders those of section 11.5.3.
use std::test::Fail;
use utf16_text::Text;
use whole_number::{Whole, WholeAnswer};

const LARGEST: i64 = 9007199254740991;

fn whole(value: i64) -> Result<Whole, Fail> {
    Ok(Whole::new(value).ok_or("not whole")?)
}

#[test]
fn arithmetic_is_exact_or_refused(rt: HostRuntime) -> Result<(), Fail> {
    let seven = whole(7)?;
    let largest = whole(LARGEST)?;
    let one = whole(1)?;
    let zero = whole(0)?;
    assert_eq!(rt; Whole::new(LARGEST + 1), None);
    assert_eq!(rt; Whole::new(-LARGEST - 1), None);
    assert_eq!(rt; largest.add(one), Err(WholeAnswer::Range));
    assert_eq!(rt; whole(-LARGEST)?.sub(one), Err(WholeAnswer::Range));
    assert_eq!(rt; largest.sub(one), Ok(whole(LARGEST - 1)?));
    assert_eq!(rt; largest.mul(whole(2)?), Err(WholeAnswer::Range));
    assert_eq!(rt;
        whole(94906265)?.mul(whole(94906265)?),
        Ok(whole(9007199136250225)?)
    );
    assert_eq!(rt; seven.div(whole(2)?), Err(WholeAnswer::Fraction));
    assert_eq!(rt; whole(-8)?.div(whole(2)?), Ok(whole(-4)?));
    assert_eq!(rt; seven.div(zero), Err(WholeAnswer::DivisionByZero));
    assert_eq!(rt; whole(-7)?.rem(whole(3)?), Ok(whole(-1)?));
    assert_eq!(rt; seven.rem(whole(-3)?), Ok(one));
    assert_eq!(rt; one.rem(zero), Err(WholeAnswer::DivisionByZero));
    Ok(())
}

#[test]
fn conversions_go_modulo_two_to_the_32nd(rt: HostRuntime) -> Result<(), Fail> {
    let cases = [
        (-1, 4294967295, -1),
        (2147483648, 2147483648, -2147483648),
        (4294967296, 0, 0),
        (4294967297, 1, 1),
        (-4294967297, 4294967295, -1),
        (LARGEST, 4294967295, -1),
    ];
    for (value, unsigned, signed) in cases {
        assert_eq!(rt; whole(value)?.to_uint32(), unsigned, "at {value}");
        assert_eq!(rt; whole(value)?.to_int32(), signed, "at {value}");
    }
    assert_eq!(rt; Whole::from(3_u32), whole(3)?);
    assert_eq!(rt; Whole::from(-3_i32), whole(-3)?);
    Ok(())
}

#[test]
fn digits_stand_at_the_front(rt: HostRuntime) -> Result<(), Fail> {
    let mut out = [b'x'; 17];
    assert_eq!(rt; whole(0)?.write_text(&mut out), 1);
    assert_eq!(rt; out, *b"0xxxxxxxxxxxxxxxx");
    assert_eq!(rt; whole(-12)?.write_text(&mut out), 3);
    assert_eq!(rt; out, *b"-12xxxxxxxxxxxxxx");
    assert_eq!(rt; whole(-LARGEST)?.write_text(&mut out), 17);
    assert_eq!(rt; out, *b"-9007199254740991");
    Ok(())
}

// Digits stand for numbers as ECMA-262 5.1, section 15.1.2.2, has them.
#[test]
fn numbers_are_read_from_digits_and_written(rt: HostRuntime) -> Result<(), Fail> {
    let alloc = rt.alloc();
    let cases = [
        (10, "0", Some(0)),
        (10, "9007199254740991", Some(LARGEST)),
        (10, "9007199254740992", None),
        (16, "1fffffffffffff", Some(LARGEST)),
        (16, "aF", Some(175)),
        (2, "101", Some(5)),
        (36, "zZ", Some(1295)),
        (10, "", Some(0)),
    ];
    for (base, digits, wanted) in cases {
        let text = Text::from_str(alloc, digits)?;
        let number = Whole::from_digits(base, text.units());
        assert_eq!(rt; number.map(Whole::get), wanted, "of {digits}");
    }
    for (value, wanted) in [(0, "0"), (-12, "-12"), (LARGEST, "9007199254740991")] {
        let text = whole(value)?.to_text(alloc)?;
        assert!(rt; text.equals(&Text::from_str(alloc, wanted)?), "of {value}");
    }
    Ok(())
}
