// Records and faults.
use dayfile::counting::count_records;
use dayfile::entry::Entry;
use dayfile::fault::Fault;
use dayfile::reading::record_at;
use dayfile::record::Placed;
use dayfile::records::Records;
use market::refusal::Refusal;
use std::test::Fail;

// A start, and then each sort of record once; an order of each kind, and one of no kind.
const FILE: [u8; 80] = [
    0xc0, 0, 0, 100, 0xd0, 3, 9, 0x58, 0xe0, 0, 0, 7, // 0: start 100, 199000, 7
    0x12, 9, 0xd9, 0xc0, // 12: clock 34200000
    0x20, 1, 1, 9, // 16: buy market 9
    0x20, 2, 2, 99, 0x30, 3, 0x0d, 0x40, // 20: sell limit 99 at 200000
    0x20, 3, 3, 1, 0x40, 3, 0x0d, 0x41, // 28: sell short stop 1 at 200001
    0x20, 1, 4, 50, 0x30, 0, 0, 2, 0x40, 0, 0, 1, // 36: buy stop limit 50, limit 2, stop 1
    0x20, 0, 7, 0xff, // 48: side 0, kind 7, 255 shares
    0x50, 0, 0, 3, // 52: cancel 3
    0x60, 0, 0, 0, 0x7f, 0xff, 0xff, 0xff, // 56: quote without bid, offer 268435455
    0x80, 0, 0, 5, 0xa0, 0, 0, 6, // 64: opening 5, 6
    0xb0, 0, 0, 0, // 72: close
    0x10, 0, 0, 0, // 76: clock 0
];

// What each record says, at its place and with its size.
#[test]
fn records(rt: HostRuntime) -> Result<(), Fail> {
    let order = Entry::Order {
        side: 2,
        kind: 2,
        shares: 99,
        limit: 200_000,
        stop: 0,
    };
    let table = [
        (
            0,
            12,
            Entry::Start {
                unit: 100,
                prior_close: 199_000,
                tag: 7,
            },
        ),
        (12, 4, Entry::Clock { time: 34_200_000 }),
        (
            16,
            4,
            Entry::Order {
                side: 1,
                kind: 1,
                shares: 9,
                limit: 0,
                stop: 0,
            },
        ),
        (20, 8, order),
        (
            28,
            8,
            Entry::Order {
                side: 3,
                kind: 3,
                shares: 1,
                limit: 0,
                stop: 200_001,
            },
        ),
        (
            36,
            12,
            Entry::Order {
                side: 1,
                kind: 4,
                shares: 50,
                limit: 2,
                stop: 1,
            },
        ),
        (
            48,
            4,
            Entry::Order {
                side: 0,
                kind: 7,
                shares: 255,
                limit: 0,
                stop: 0,
            },
        ),
        (52, 4, Entry::Cancel { number: 3 }),
        (
            56,
            8,
            Entry::Quote {
                bid: 0,
                offer: 268_435_455,
            },
        ),
        (
            64,
            8,
            Entry::Opening {
                price: 5,
                volume: 6,
            },
        ),
        (72, 4, Entry::Close),
    ];
    for (place, size, entry) in table {
        let found = record_at(&FILE, place)?;
        assert_eq!(rt; found.place, place);
        assert_eq!(rt; found.record.part().len(), size);
        assert_eq!(rt; found.record.entry(), entry);
    }
    assert_eq!(rt; count_records(&FILE), Ok(12));
    Ok(())
}

// The file of each row is the front of a list of bytes, of this length.
#[test]
fn faults(rt: HostRuntime) {
    let second_start = [0xc0, 0, 0, 10, 0xd0, 0, 0, 1, 0xe0, 0, 0, 1, 0xc0, 0, 0, 10];
    let gap = [
        0xc0, 0, 0, 10, 0xd0, 0, 0, 1, 0xe0, 0, 0, 1, 0x20, 1, 0x0a, 9,
    ];
    let wide = [0xc0, 0, 0, 10, 0xd0, 0, 0, 1, 0xe0, 0, 0, 1, 0x20, 5, 1, 9];
    let close = [0xc0, 0, 0, 10, 0xd0, 0, 0, 1, 0xe0, 0, 0, 1, 0xb0, 0, 0, 1];
    let other = [0xc0, 0, 0, 10, 0xd0, 0, 0, 1, 0xe0, 0, 0, 1, 0x60, 0, 0, 1];
    let table = [
        (FILE, 0, Refusal::FileCut, 0),
        (FILE, 3, Refusal::FileCut, 0),
        (FILE, 8, Refusal::FileCut, 0),
        (FILE, 15, Refusal::FileCut, 12),
        (FILE, 24, Refusal::FileCut, 20),
        (FILE, 27, Refusal::FileCut, 20),
        (FILE, 45, Refusal::FileCut, 36),
    ];
    for (bytes, size, reason, place) in table {
        assert_eq!(rt;
            count_records(&bytes[0..size]),
            Err(Fault { reason, place })
        );
    }
    let bad = Err(Fault {
        reason: Refusal::BadWord,
        place: 12,
    });
    assert_eq!(rt; count_records(&second_start), bad);
    assert_eq!(rt; count_records(&gap), bad);
    assert_eq!(rt; count_records(&wide), bad);
    assert_eq!(rt; count_records(&close), bad);
    assert_eq!(rt;
        count_records(&other),
        Err(Fault {
            reason: Refusal::FileCut,
            place: 12,
        })
    );
    let no_start = Err(Fault {
        reason: Refusal::BadWord,
        place: 0,
    });
    assert_eq!(rt; count_records(&FILE[12..16]), no_start);
}

// 65,536 bytes are a file, and one more are none.
#[test]
fn lengths(rt: HostRuntime) -> Result<(), Fail> {
    let mut file = FILE[0..12].to_vec(rt.alloc())?;
    for _ in 0..16_381 {
        file.extend_from_slice(&[0x50, 0, 0, 1])?;
    }
    assert_eq!(rt; count_records(file.as_slice()), Ok(16_382));
    file.push(0)?;
    assert_eq!(rt; count_records(file.as_slice()), Err(Fault::too_long()));
    Ok(())
}

// Where a record that was found begins.
fn place_of(found: Result<Placed<'_>, Fault>) -> Result<usize, Fault> {
    found.map(|placed| placed.place)
}

// Records come one after another from a place on, and a fault is the last that comes.
#[test]
fn one_after_another(rt: HostRuntime) -> Result<(), Fail> {
    let mut places = Vec::new(rt.alloc());
    for found in Records::new(&FILE, 48) {
        places.push(place_of(found)?)?;
    }
    assert_eq!(rt; places.as_slice(), [48, 52, 56, 64, 72, 76].as_slice());
    let mut cut = Records::new(&FILE[0..27], 16);
    let fault = Fault {
        reason: Refusal::FileCut,
        place: 20,
    };
    assert_eq!(rt; cut.next().map(place_of), Some(Ok(16)));
    assert_eq!(rt; cut.next().map(place_of), Some(Err(fault)));
    assert_eq!(rt; cut.next().map(place_of), None);
    Ok(())
}
