// Plays.
use book::book::Book;
use market::refusal::Refusal;
use play::ending::Ending;
use play::play::{odd_lot_play, play, play_into};
use std::alloc::Global;
use std::process::Abort;
use std::test::Fail;

// A day of unit 10 with three buys, of which two are filled by the first trade and one by the second; then a cancel of
// an order that is gone.
const FILE: [u8; 64] = [
    0xc0, 0, 0, 10, 0xd0, 3, 9, 0x58, 0xe0, 0, 0, 1, 0x12, 9, 0xd9, 0xc0, 0x80, 3, 0x0d, 0x40,
    0xa0, 0, 0, 10, 0x20, 1, 1, 9, 0x20, 1, 1, 9, 0x20, 1, 2, 5, 0x30, 3, 0x0d, 0x40, 0x90, 3,
    0x0d, 0x40, 0xa0, 0, 0, 10, 0x90, 3, 0x0c, 0xdc, 0xa0, 0, 0, 10, 0x50, 0, 0, 3, 0xb0, 0, 0, 0,
];

const LINES: &[u8] = b"1 1 9 200000 2\n2 1 9 200000 2\n3 1 5 199900 2\nR 9 9\nT -23 4599500\n";

// The file played into the first bytes of 70, by each of the three entries, which write the same: how it ends, the number
// for C, and what the bytes hold then.
fn played(rt: &impl Abort, heap: Global, room: usize) -> Result<(Ending, u64, Vec<u8>), Fail> {
    let mut out = vec![in heap; b'.'; 70]?;
    let mut own = vec![in heap; b'.'; 70]?;
    let mut host = vec![in heap; b'.'; 70]?;
    assert!(rt; room <= 70);
    let ending = play_into(
        Book::reserve(heap)?,
        &FILE,
        &mut out.as_mut_slice()[0..room],
    );
    let again = play(heap, &FILE, &mut own.as_mut_slice()[0..room])?;
    let answer = odd_lot_play(heap, &FILE, &mut host.as_mut_slice()[0..room]);
    assert_eq!(rt; again, ending);
    assert_eq!(rt; own.as_slice(), out.as_slice());
    assert_eq!(rt; host.as_slice(), out.as_slice());
    Ok((ending, answer, out))
}

// Outputs of these lengths: the bytes written, which end a line, and the number in the answer.
#[test]
fn outputs(rt: HostRuntime) -> Result<(), Fail> {
    assert_eq!(rt; LINES.len(), 65);
    let table = [
        (0, 0, 18),
        (14, 0, 18),
        (15, 15, 18),
        (29, 15, 18),
        (45, 45, 18),
        (50, 45, 18),
        (51, 51, 18),
        (64, 51, 18),
        (65, 65, 0),
        (70, 65, 0),
    ];
    for (room, written, number) in table {
        let (ending, answer, out) = played(&rt, rt.alloc(), room)?;
        assert_eq!(rt; ending.written, written);
        let end = if number == 0 {
            Ok(())
        } else {
            Err(Refusal::OutputShort)
        };
        assert_eq!(rt; ending.end, end);
        assert_eq!(rt; answer / 32, written as u64);
        assert_eq!(rt; answer % 32, number);
        let bytes = out.as_slice();
        assert!(rt; written <= bytes.len());
        assert!(rt; LINES.starts_with(&bytes[0..written]));
        for b in &bytes[written..] {
            assert_eq!(rt; *b, b'.');
        }
    }
    Ok(())
}

// A refused start closes the day: every later record is refused with 1. A fault ends the lines.
#[test]
fn refused_start(rt: HostRuntime) -> Result<(), Fail> {
    let file = [
        0xc0, 0, 0, 11, 0xd0, 0, 0, 1, 0xe0, 0, 0, 1, 0x10, 0, 0, 0, 0xb0, 0, 0,
    ];
    let mut out = [0; 24];
    let mut host = [0; 24];
    let whole = play_into(Book::reserve(rt.alloc())?, &file[0..16], &mut out);
    assert_eq!(rt;
        whole,
        Ending {
            written: 18,
            end: Ok(())
        }
    );
    assert_eq!(rt; odd_lot_play(rt.alloc(), &file[0..16], &mut host), 18 * 32);
    assert!(rt; out.starts_with(b"R 1 4\nR 2 1\nT 0 0\n"));
    assert_eq!(rt; host, out);
    let cut = play_into(Book::reserve(rt.alloc())?, &file, &mut out);
    assert_eq!(rt;
        cut,
        Ending {
            written: 20,
            end: Err(Refusal::FileCut)
        }
    );
    assert_eq!(rt; odd_lot_play(rt.alloc(), &file, &mut host), 20 * 32 + 16);
    assert!(rt; out.starts_with(b"R 1 4\nR 2 1\nX 16 16\n"));
    assert_eq!(rt; host, out);
    Ok(())
}
