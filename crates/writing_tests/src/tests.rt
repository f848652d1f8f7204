// What writing is told, and what comes back of what was written.
use super::*;
use board_tests::row_board::RowBoard;
use file_tests::largest_file;
use round_trips::{read_and_write, write_and_read};
use table_board::TableBoard;

// The output may just fit, and what lies past the file is not touched.
#[test]
fn the_sample(rt: HostRuntime) {
    let mut fits = [0; 69];
    assert_eq!(rt; write_sample(0x65, &mut fits), Ok(69));
    assert!(rt; fits == SAMPLE);
    let mut longer = [7; 71];
    assert_eq!(rt; write_sample(0x77, &mut longer), Ok(69));
    assert_eq!(rt; longer[4], 0x77);
    assert!(rt; longer[5..69] == SAMPLE[5..69]);
    assert!(rt; longer[69..71] == [7, 7]);
    let mut shorter = [7; 68];
    assert_eq!(rt; write_sample(0x65, &mut shorter), Err((19, 0)));
    assert!(rt; shorter == [7; 68]);
}

// An unknown letter is told before all else, then sizes that differ, then want of room.
#[test]
fn refused_in_order(rt: HostRuntime) {
    let mut none = [];
    assert_eq!(rt; write_sample(0x78, &mut none), Err((7, 0)));
    assert_eq!(rt; write_sample(0x6E, &mut none), Err((19, 0)));
    let mut entries = [BLANK; 1];
    let mut board = PairBoard::make(1, 1, &mut entries);
    let mut tasks = TaskTable::new();
    assert_eq!(rt; told(write(&board, &tasks, 0x78, &mut none)), Err((7, 0)));
    assert_eq!(rt; told(write(&board, &tasks, 0x65, &mut none)), Err((9, 0)));
    assert!(rt; tasks.push(0, 1, b"a").is_ok());
    assert_eq!(rt; told(write(&board, &tasks, 0x65, &mut none)), Err((19, 0)));
    assert!(rt; tasks.push(1, 1, b"b").is_ok());
    assert_eq!(rt; told(write(&board, &tasks, 0x65, &mut none)), Err((9, 0)));
    let nothing = TaskTable::new();
    let mut no_entries = [];
    let empty = PairBoard::make(0, 0, &mut no_entries);
    let mut out = [0; 40];
    assert_eq!(rt; told(write(&empty, &nothing, 0x65, &mut out)), Err((9, 0)));
    assert!(rt; out == [0; 40]);
    board.clear();
}

#[test]
fn the_largest_order_again(rt: HostRuntime) {
    let file = largest_file();
    let mut entries = [BLANK; 1024];
    let mut board = PairBoard::make(64, 16, &mut entries);
    let mut tasks = TaskTable::new();
    let mut again = [0; 17661];
    assert_eq!(rt;
        told(read_and_write(file.as_slice(), &mut board, &mut tasks, &mut again)),
        Ok(17661)
    );
    assert!(rt; &again[0..17661] == file.as_slice());
    let mut short = [0; 17660];
    assert_eq!(rt;
        told(read_and_write(file.as_slice(), &mut board, &mut tasks, &mut short)),
        Err((19, 0))
    );
    assert_eq!(rt; board.free_slots(), 640);
}

// A board of another build takes an order just where it can hold it.
#[test]
fn from_board_to_board(rt: HostRuntime) {
    let mut entries = [BLANK; 3];
    let mut first = PairBoard::make(2, 2, &mut entries);
    let mut tasks = TaskTable::new();
    assert!(rt; read(&SAMPLE, &mut first, &mut tasks).is_ok());
    assert!(rt; first.set_held(1, 1, 2).is_ok());
    assert!(rt; first.set_capacity(0, 400).is_ok());
    let mut out = [0; 80];
    let mut rows = RowBoard::make(2, 2);
    let mut names = TaskTable::new();
    assert_eq!(rt;
        write_and_read(&first, &tasks, 0x6E, &mut out, &mut rows, &mut names).ok(),
        Some(0x6E)
    );
    assert_eq!(rt; rows.held(1, 1), 2);
    assert_eq!(rt; rows.capacity(0), 400);
    assert_eq!(rt; rows.free_slots(), 401);
    assert!(rt; names.name(1) == b"log".as_slice());
    assert!(rt; first.set_capacity(0, 401).is_ok());
    assert_eq!(rt;
        told(write_and_read(&first, &tasks, 0x6E, &mut out, &mut rows, &mut names)),
        Err((13, 7))
    );
    assert_eq!(rt; rows.pair_count(), 0);
    assert_eq!(rt; names.len(), 0);
    let mut numbers = [0; 14];
    let mut table = TableBoard::make(3, 2, &mut numbers);
    assert_eq!(rt;
        told(write_and_read(&first, &tasks, 0x6E, &mut out, &mut table, &mut names)),
        Err((9, 0))
    );
    let mut few = [BLANK; 2];
    let mut second = PairBoard::make(2, 2, &mut few);
    assert_eq!(rt;
        told(write_and_read(&first, &tasks, 0x6E, &mut out, &mut second, &mut names)),
        Err((16, 55))
    );
}
