// What reading is told of files that are right, and of files that are wrong in one thing.
use super::*;
use board_tests::row_board::RowBoard;
use orderfile::sizes;

#[test]
fn a_changed_byte(rt: HostRuntime) {
    let changes = [
        // nothing is changed, the three letters, and numbers up to their bounds
        accepted(4, 0x65, 0x65),
        accepted(4, 0x77, 0x77),
        accepted(4, 0x6E, 0x6E),
        accepted(13, 3, 0x65),
        accepted(26, 100, 0x65),
        accepted(27, 0x21, 0x65),
        accepted(27, 0x7E, 0x65),
        accepted(46, 3, 0x65),
        // a length below 2, or past the end of the file
        refused(0, 1, 2, 0),
        refused(0, 0, 2, 0),
        refused(1, 255, 2, 0),
        refused(64, 1, 2, 63),
        // no such kind
        refused(2, 0, 3, 0),
        refused(2, 7, 3, 0),
        refused(3, 1, 3, 0),
        refused(65, 9, 3, 63),
        // out of turn: no head, two heads, too few and too many cores, too few and too many tasks
        refused(2, 2, 4, 0),
        refused(9, 1, 4, 7),
        refused(16, 3, 4, 14),
        refused(23, 2, 4, 21),
        refused(32, 4, 4, 30),
        refused(32, 6, 4, 30),
        refused(41, 3, 4, 39),
        // a body too long or too short for its kind
        refused(0, 6, 5, 0),
        refused(7, 4, 5, 7),
        refused(21, 4, 5, 21),
        refused(39, 5, 5, 39),
        refused(63, 3, 5, 63),
        // numbers that are not the next, are too large, or do not rise
        refused(11, 1, 6, 7),
        refused(18, 0, 6, 14),
        refused(25, 1, 6, 21),
        refused(34, 0, 6, 30),
        refused(43, 2, 6, 39),
        refused(44, 2, 6, 39),
        refused(51, 0, 6, 47),
        refused(60, 0, 6, 55),
        // letters and values out of bounds
        refused(4, 0x78, 7, 0),
        refused(4, 0x45, 7, 0),
        refused(5, 0, 7, 0),
        refused(5, 65, 7, 0),
        refused(6, 0, 7, 0),
        refused(6, 17, 7, 0),
        refused(13, 4, 7, 7),
        refused(26, 0, 7, 21),
        refused(26, 101, 7, 21),
        refused(45, 0, 7, 39),
        refused(46, 4, 7, 39),
        // bytes that do not show
        refused(27, 0x20, 8, 21),
        refused(29, 0x7F, 8, 21),
        // another board's sizes
        refused(5, 3, 9, 0),
        refused(5, 64, 9, 0),
        refused(6, 1, 9, 0),
        refused(6, 16, 9, 0),
        // a wrong count
        refused(67, 7, 10, 63),
        refused(68, 1, 10, 63),
        // slots without a need
        refused(41, 5, 14, 39),
        refused(57, 5, 14, 55),
    ];
    assert_eq!(rt; first_surprise(&changes), None);
}

// A file that is cut anywhere is refused at the record that is cut, or at its length where a record would begin.
#[test]
fn each_beginning(rt: HostRuntime) {
    let begins = [0, 7, 14, 21, 30, 39, 47, 55, 63];
    let mut place = 0;
    for length in 0..69 {
        if begins.contains(&length) {
            place = length;
        }
        assert_eq!(rt; told_of(&SAMPLE[0..length]), Err((2, place)));
    }
}

#[test]
fn more_than_one_byte(rt: HostRuntime) {
    let mut twice = SAMPLE;
    twice[36] = 0x62;
    twice[37] = 0x75;
    twice[38] = 0x73;
    assert_eq!(rt; told_of(&twice), Err((8, 30)));
    let mut longer = [0; 70];
    longer[0..69].copy_from_slice(&SAMPLE);
    assert_eq!(rt; told_of(&longer), Err((11, 69)));
    assert_eq!(rt; told_of(&[0; 17662]), Err((1, 0)));
    assert_eq!(rt; told_of(&[0; 17661]), Err((2, 0)));
    assert_eq!(rt; told_of(&[2, 0, 9]), Err((2, 0)));
    assert_eq!(rt; told_of(&[2, 0, 9, 0]), Err((3, 0)));
}

// One task on one core: a need of 3 at the capacity, and the slots held.
fn one_pair(capacity: u8, slots: u8) -> [u8; 43] {
    [
        5, 0, 1, 0, 0x65, 1, 1, 5, 0, 2, 0, 0, capacity, 0, 5, 0, 3, 0, 0, 1, 0x61, 6, 0, 4, 0, 0,
        0, 3, 0, 6, 0, 5, 0, 0, 0, slots, 0, 4, 0, 6, 0, 5, 0,
    ]
}

#[test]
fn what_the_board_refuses(rt: HostRuntime) {
    let mut two = [BLANK; 2];
    let mut small = PairBoard::make(2, 2, &mut two);
    let mut tasks = TaskTable::new();
    assert_eq!(rt; told(read(&SAMPLE, &mut small, &mut tasks)), Err((16, 55)));
    assert_eq!(rt; small.pair_count(), 0);
    assert_eq!(rt; tasks.len(), 0);
    let mut entries = [BLANK; 1];
    let mut board = PairBoard::make(1, 1, &mut entries);
    assert_eq!(rt;
        told(read(&one_pair(3, 3), &mut board, &mut tasks)),
        Ok(0x65)
    );
    assert_eq!(rt; board.held(0, 0), 3);
    assert_eq!(rt; tasks.len(), 1);
    assert_eq!(rt;
        told(read(&one_pair(3, 4), &mut board, &mut tasks)),
        Err((14, 29))
    );
    assert_eq!(rt; board.pair_count(), 0);
    assert_eq!(rt; board.capacity(0), 0);
    assert_eq!(rt;
        told(read(&one_pair(2, 3), &mut board, &mut tasks)),
        Err((15, 29))
    );
    assert_eq!(rt; tasks.len(), 0);
    let mut low = RowBoard::make(2, 2);
    let mut file = SAMPLE;
    file[13] = 1;
    assert_eq!(rt; told(read(&file, &mut low, &mut tasks)), Ok(0x65));
    file[13] = 2;
    assert_eq!(rt; told(read(&file, &mut low, &mut tasks)), Err((13, 7)));
}

// The first record alone tells the sizes.
#[test]
fn sizes_alone(rt: HostRuntime) {
    assert_eq!(rt; sizes(&SAMPLE), Ok((0x65, 2, 2)));
    assert_eq!(rt; sizes(&[5, 0, 1, 0, 0x6E, 64, 16]), Ok((0x6E, 64, 16)));
    assert_eq!(rt; sizes(&[5, 0, 1, 0, 0x6E, 64, 16, 9]), Ok((0x6E, 64, 16)));
    assert!(rt; sizes(&[5, 0, 1, 0, 0x6E, 65, 16]).is_err());
    assert!(rt; sizes(&[5, 0, 1, 0, 0x6E, 64]).is_err());
    assert!(rt; sizes(&[]).is_err());
}

#[test]
fn the_largest_order(rt: HostRuntime) {
    let mut file = largest_file();
    assert_eq!(rt; file.len(), 17661);
    let mut entries = [BLANK; 1024];
    let mut board = PairBoard::make(64, 16, &mut entries);
    let mut tasks = TaskTable::new();
    assert_eq!(rt;
        told(read(file.as_slice(), &mut board, &mut tasks)),
        Ok(0x77)
    );
    assert_eq!(rt; board.whole_need(63), 16000);
    assert_eq!(rt; board.total(63), 240);
    assert_eq!(rt; board.free_slots(), 640);
    assert_eq!(rt; tasks.weight(63), 100);
    assert_eq!(rt; tasks.name(63).len(), 12);
    assert!(rt; file.try_push(0).is_ok());
    assert_eq!(rt;
        told(read(file.as_slice(), &mut board, &mut tasks)),
        Err((1, 0))
    );
    assert_eq!(rt; board.whole_need(63), 0);
}

// No needs and no slots at all.
#[test]
fn the_smallest_order(rt: HostRuntime) {
    let mut entries = [BLANK; 1];
    let mut board = PairBoard::make(1, 1, &mut entries);
    let mut tasks = TaskTable::new();
    let file = [
        5, 0, 1, 0, 0x65, 1, 1, 5, 0, 2, 0, 0, 0, 0, 5, 0, 3, 0, 0, 1, 0x61, 4, 0, 6, 0, 3, 0,
    ];
    assert_eq!(rt; told(read(&file, &mut board, &mut tasks)), Ok(0x65));
    assert_eq!(rt; board.pair_count(), 0);
    assert_eq!(rt; tasks.len(), 1);
}
