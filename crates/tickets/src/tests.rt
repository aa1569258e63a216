// Tickets written and read by running.
use crate::{TicketWeight, read, ticket_len, unpack, write};
use layouts::{Layout, Listed};
use std::array;
use weights::{Paired, Plain, Weight};

// More than the longest ticket of our kinds takes.
const ROOM: usize = 10_300;

// One row of three cells, word 110, multipliers -4, 4, 4.
const EXAMPLE: [u8; 28] = [
    0x4C, 0x48, 0x00, 0x03, 0x01, 0x00, 0x03, 0x4C, 0x57, 0xC0, 0x4C, 0x4D, 0xFF, 0xFF, 0xFF, 0xFC,
    0x4C, 0x4D, 0x00, 0x00, 0x00, 0x04, 0x4C, 0x4D, 0x00, 0x00, 0x00, 0x04,
];

// Whether what was read is written again as the same ticket, or the number with which the ticket is declined.
fn again<L: Layout, W: TicketWeight>(layout: &L, bytes: &[u8], work: &mut [W]) -> Result<bool, u8> {
    let packed = read(layout, bytes, work).map_err(|refusal| refusal.number())?;
    let mut cells = [0u8; 128];
    let word = &mut cells[0..usize::from(layout.cells()).min(128)];
    unpack(packed, word);
    let mut out = [0u8; ROOM];
    Ok(write(layout, word, work, &mut out).is_ok_and(|len| &out[0..len.min(ROOM)] == bytes))
}

// What comes of the example once one bit is turned: another ticket, or the number with which it is declined.
fn turned(place: usize, bit: u8) -> Result<bool, u8> {
    match place {
        0..=1 => Err(15),
        2..=6 => Err(16),
        7..=8 => Err(17),
        9 => if bit >= 5 { Ok(true) } else { Err(17) },
        _ => match (place - 10) % 6 {
            0..=2 => Err(17),
            3 => if bit <= 1 { Ok(true) } else { Err(17) },
            _ => Ok(true),
        },
    }
}

#[test]
fn each_bit_turned(rt: HostRuntime) {
    let layout = Listed::new(3, &[3], &[0, 1, 2]);
    for place in 0..28 {
        for bit in 0..8u8 {
            let mut bytes = EXAMPLE;
            bytes[place] ^= 1 << bit;
            let mut work = [Plain::new(7); 3];
            let answer = again(&layout, &bytes, &mut work);
            assert_eq!(rt; answer, turned(place, bit));
            assert!(rt; answer.is_ok() || work == [Plain::new(7); 3]);
        }
    }
}

#[test]
fn cut_short_and_drawn_out(rt: HostRuntime) {
    let layout = Listed::new(3, &[3], &[0, 1, 2]);
    let mut longer = [0u8; 29];
    longer[0..28].copy_from_slice(&EXAMPLE);
    for len in 0..30usize {
        let mut work = [Plain::new(7); 3];
        let answer = again(&layout, &longer[0..len.min(29)], &mut work);
        assert_eq!(rt;
            answer,
            if len < 7 {
                Err(15)
            } else if len == 28 {
                Ok(true)
            } else {
                Err(17)
            }
        );
        assert!(rt; answer.is_ok() || work == [Plain::new(7); 3]);
    }
}

// Numbers from -2^18 at 0 to 2^18 at 1,023. Here and below `as` takes small places to a type that has no `From` of them.
fn number(i: usize) -> i64 {
    i.min(1023) as i64 * 524_288 / 1023 - 262_144
}

// Two weights are the same where neither is below the other: the interface has no `==`.
fn is_same<W: Weight>(a: &[W], b: &[W]) -> bool {
    a.len() == b.len() && a.iter().zip(b).all(|(x, y)| !x.below(*y) && !y.below(*x))
}

// Whether the ticket reads back, and leaves what lies behind it in the output.
fn reads_back<L: Layout, W: TicketWeight>(
    layout: &L,
    word: &[u8],
    multipliers: &[W],
    work: &mut [W],
) -> bool {
    let mut out = [0xAAu8; ROOM];
    let Ok(len) = write(layout, word, multipliers, &mut out) else {
        return false;
    };
    let len = len.min(ROOM);
    let Ok(packed) = read(layout, &out[0..len], work) else {
        return false;
    };
    let mut cells = [9u8; 128];
    let cells = &mut cells[0..word.len().min(128)];
    unpack(packed, cells);
    out[len..].iter().all(|byte| *byte == 0xAA)
        && len == ticket_len::<L, W>(layout)
        && &cells[..] == word
        && is_same(work, multipliers)
}

// The same with as many multipliers as the layout has edges, and the first cells of the word.
fn front_reads_back<W: TicketWeight>(
    layout: &Listed,
    word: &[u8],
    multipliers: &[W],
    work: &mut [W],
) -> bool {
    let word = &word[0..usize::from(layout.cells()).min(word.len())];
    let edges = usize::from(layout.edges())
        .min(multipliers.len())
        .min(work.len());
    reads_back(layout, word, &multipliers[0..edges], &mut work[0..edges])
}

fn both_read_back(layout: &Listed, word: &[u8]) -> bool {
    let plain: [Plain; 1024] = array::from_fn(|i| Plain::new(number(i)));
    let paired: [Paired; 1024] = array::from_fn(|i| Paired::new(number(i), number(1023 - i)));
    front_reads_back(layout, word, &plain, &mut [Plain::new(1); 1024])
        && front_reads_back(layout, word, &paired, &mut [Paired::new(1, 1); 1024])
}

// A word of some pattern, an all dark one and a blank one.
fn all_read_back(layout: &Listed) -> bool {
    let pattern: [u8; 128] = array::from_fn(|i| (i % 3 % 2) as u8);
    both_read_back(layout, &pattern)
        && both_read_back(layout, &[1; 128])
        && both_read_back(layout, &[0; 128])
}

#[test]
fn round_trips(rt: HostRuntime) {
    // the cells 0 to 127, eight times
    let entries: [u16; 1024] = array::from_fn(|i| (i % 128) as u16);
    for cells in [1u16, 7, 8, 9, 128] {
        let empty = Listed::new(cells, &[], &[]);
        assert!(rt; empty.cells() == cells && empty.edges() == 0 && all_read_back(&empty));
        let ends = [cells];
        let single = Listed::new(cells, &ends, &entries[0..usize::from(cells.min(128))]);
        assert!(rt; single.edges() == cells && all_read_back(&single));
    }
    let ends = [128, 256, 384, 512, 640, 768, 896, 1024];
    let full = Listed::new(128, &ends, &entries);
    assert!(rt; full.edges() == 1024 && all_read_back(&full));
}

// Whether a ticket was written, or the number with which writing is declined; false where a declined writing has changed a byte.
fn written(word: &[u8], multipliers: &[Plain], room: usize) -> Result<bool, u8> {
    let layout = Listed::new(3, &[3], &[0, 1, 2]);
    let mut out = [0xAAu8; 28];
    match write(&layout, word, multipliers, &mut out[0..room.min(28)]) {
        Ok(_) => Ok(true),
        Err(refusal) if out == [0xAA; 28] => Err(refusal.number()),
        Err(_) => Ok(false),
    }
}

#[test]
fn declined_writings(rt: HostRuntime) {
    let most = Plain::new(262_144);
    let least = Plain::new(-262_144);
    let above = Plain::new(262_145);
    let below = Plain::new(-262_145);
    assert_eq!(rt; written(&[1, 1, 0], &[most, least, most], 28), Ok(true));
    assert_eq!(rt; written(&[1, 1, 0], &[most, least, most], 27), Err(20));
    assert_eq!(rt; written(&[1, 1, 0], &[most, least, above], 27), Err(12));
    assert_eq!(rt; written(&[1, 1, 0], &[most, below, most], 28), Err(12));
    assert_eq!(rt; written(&[1, 1, 0], &[most, least], 28), Err(12));
    assert_eq!(rt;
        written(&[1, 1, 0], &[most, least, most, most], 28),
        Err(12)
    );
    assert_eq!(rt; written(&[1, 2, 0], &[most, least, above], 27), Err(13));
    assert_eq!(rt; written(&[1, 1], &[most, least, most], 28), Err(13));
    assert_eq!(rt; written(&[1, 1, 0, 0], &[most], 0), Err(13));
}

#[test]
fn declined_readings(rt: HostRuntime) {
    let layout = Listed::new(3, &[3], &[0, 1, 2]);
    // the wrong work list before anything of the ticket
    assert_eq!(rt; again(&layout, &[], &mut [Plain::new(7); 2]), Err(22));
    assert_eq!(rt; again(&layout, &EXAMPLE, &mut [Plain::new(7); 4]), Err(22));
    // another kind, and another layout
    assert_eq!(rt;
        again(&layout, &EXAMPLE, &mut [Paired::new(7, 7); 3]),
        Err(16)
    );
    let other = Listed::new(3, &[1, 3], &[0, 1, 2]);
    assert_eq!(rt; again(&other, &EXAMPLE, &mut [Plain::new(7); 3]), Err(16));
}
