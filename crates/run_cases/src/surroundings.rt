// What scripts are told of their surroundings.
use answer_table::AnswerTable;
use anyhow::{Context, Result, ensure};
use pac_calendar::{Civil, Moments};
use pac_functions::PacSettings;
use pac_names::NameKind::{V4, V6};
use pac_names::{Answer, LookupName, NameKind};
use std::alloc::Global;

/// The clocks of GMT and of a zone that is five hours ahead.
pub(crate) const NOW: Moments = Moments {
    gmt: Civil {
        year: 2023,
        month: 11,
        day: 14,
        weekday: 2,
        hour: 22,
        minute: 13,
        second: 20,
    },
    local: Civil {
        year: 2023,
        month: 11,
        day: 15,
        weekday: 3,
        hour: 3,
        minute: 13,
        second: 20,
    },
};

/// The same clocks at another moment, on a Saturday.
pub(crate) const LATER: Moments = Moments {
    gmt: Civil {
        year: 2023,
        month: 11,
        day: 18,
        weekday: 6,
        hour: 9,
        minute: 33,
        second: 20,
    },
    local: Civil {
        year: 2023,
        month: 11,
        day: 18,
        weekday: 6,
        hour: 14,
        minute: 33,
        second: 20,
    },
};

/// The machine is 192.168.1.10.
pub(crate) const SETTINGS: PacSettings = PacSettings { my_ip: 0xC0A8_010A };

/// The names that hosts know: 10.1.2.3, 192.168.7.9, 198.95.249.79, 2001:db8::1 and 2001:db8::6, two that have an
/// address of the other family alone, and one without an address.
const KNOWN: [(NameKind, &str, Answer); 8] = [
    (V4, "a.example", Answer::Address(0x0A01_0203)),
    (V6, "a.example", Answer::Address6(0x2001_0DB8 << 96 | 1)),
    (V4, "b.example", Answer::Address(0xC0A8_0709)),
    (V6, "six.example", Answer::Address6(0x2001_0DB8 << 96 | 6)),
    (V4, "home.netscape.com", Answer::Address(0xC65F_F94F)),
    (V4, "none.example", Answer::NoAddress),
    (V4, "other.example", Answer::Address6(1)),
    (V6, "other.example", Answer::Address(1)),
];

pub(crate) fn known_names(alloc: Global) -> Result<AnswerTable> {
    let mut table = AnswerTable::new(alloc);
    for (kind, name, answer) in KNOWN {
        let name = LookupName::from_bytes(name.as_bytes()).context("a lookup name")?;
        let name = name.with_kind(kind);
        ensure!(table.get(&name).is_none(), "each name once");
        table.insert(alloc, name, answer)?;
    }
    Ok(table)
}
