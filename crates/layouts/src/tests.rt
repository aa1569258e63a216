use crate::{Grid, Layout, Listed, RowNo};
use refusals::Refusal;
use std::array;
use std::test::Fail;

// The length of a row, and its first three cells.
type Row = (Option<u16>, [Option<u16>; 3]);

// A row that does not exist.
const ABSENT: Row = (None, [None; 3]);

// Whether lists are accepted, or the number of the refusal.
fn checked(cells: u16, ends: &[u16], entries: &[u16]) -> Result<(), u8> {
    Listed::check(cells, ends, entries).map_err(Refusal::number)
}

// The numbers 0 to 127, over and over, each raised by `from`.
// `as`: there is no `From` of a place for it.
fn cycle(from: u8) -> [u16; 1025] {
    array::from_fn(|i| u16::from(from) + (i % 128) as u16)
}

fn row<L: Layout>(layout: &L, row: RowNo) -> Row {
    let cells = [0, 1, 2].map(|place| layout.cell(row, place).map(|cell| cell.0));
    (layout.row_len(row), cells)
}

// Whether the first six rows are these.
fn holds<L: Layout>(layout: &L, rows: &[Row; 6]) -> bool {
    (0..6u16).zip(rows).all(|(number, expected)| row(layout, RowNo(number)) == *expected)
}

#[test]
fn limits_of_lists(rt: HostRuntime) {
    for (cells, refusal) in [(0, Err(1)), (1, Ok(())), (128, Ok(())), (129, Err(1))] {
        assert_eq!(rt; checked(cells, &[], &[]), refusal);
    }

    let rows = [128, 256, 384, 512, 640, 768, 896, 1024];
    let entries = cycle(0);
    assert_eq!(rt; checked(128, &rows, &entries[0..1024]), Ok(()));
    assert_eq!(rt; checked(128, &rows, &entries), Err(1));

    let ends = cycle(1);
    assert_eq!(rt; checked(1, &ends[0..96], &[0; 96]), Ok(()));
    assert_eq!(rt; checked(1, &ends[0..97], &[0; 97]), Err(1));
}

#[test]
fn faults_of_lists(rt: HostRuntime) {
    let cases: [(u16, &[u16], &[u16], Result<(), u8>); 13] = [
        // the first end 0, an end equal, an end lower; the last end too low, too high, none
        (2, &[0, 1], &[0], Err(2)),
        (2, &[1, 1], &[0], Err(2)),
        (2, &[2, 1], &[0], Err(2)),
        (2, &[1], &[0, 1], Err(2)),
        (2, &[2], &[0], Err(2)),
        (2, &[], &[0], Err(2)),
        // an entry too large, equal, lower; from row to row entries may repeat and fall
        (2, &[1], &[2], Err(3)),
        (2, &[2], &[0, 0], Err(3)),
        (2, &[2], &[1, 0], Err(3)),
        (2, &[1, 2, 3], &[1, 1, 0], Ok(())),
        // the first reason counts
        (0, &[0], &[9], Err(1)),
        (1, &[0], &[9], Err(2)),
        (1, &[1], &[9], Err(3)),
    ];
    for (cells, ends, entries, refusal) in cases {
        assert_eq!(rt; checked(cells, ends, entries), refusal);
    }
}

#[test]
fn answers_of_lists(rt: HostRuntime) {
    let listed = Listed::new(3, &[2, 3], &[0, 2, 1]);
    assert!(rt; listed.cells() == 3 && listed.rows() == 2 && listed.edges() == 3);
    assert!(rt;
        holds(
            &listed,
            &[
                (Some(2), [Some(0), Some(2), None]),
                (Some(1), [Some(1), None, None]),
                ABSENT,
                ABSENT,
                ABSENT,
                ABSENT,
            ],
        )
    );

    let declined = Listed::new(2, &[2, 3], &[0, 2, 1]);
    assert!(rt; declined.cells() == 1 && declined.rows() == 0 && declined.edges() == 0);
    assert!(rt; holds(&declined, &[ABSENT; 6]));
}

#[test]
fn answers_of_grids(rt: HostRuntime) -> Result<(), Fail> {
    for (lines, columns) in [(1, 2), (2, 1), (12, 2), (2, 12)] {
        assert!(rt; Grid::new(lines, columns).is_err());
    }
    let large = Grid::new(11, 11)?;
    assert!(rt; large.cells() == 121);

    let grid = Grid::new(2, 3)?;
    assert!(rt; grid.cells() == 6 && grid.rows() == 5 && grid.edges() == 12);
    assert!(rt;
        holds(
            &grid,
            &[
                (Some(3), [Some(0), Some(1), Some(2)]),
                (Some(3), [Some(3), Some(4), Some(5)]),
                (Some(2), [Some(0), Some(3), None]),
                (Some(2), [Some(1), Some(4), None]),
                (Some(2), [Some(2), Some(5), None]),
                ABSENT,
            ],
        )
    );
    Ok(())
}
