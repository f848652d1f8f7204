// The same tests on boards of every build, and those of each build alone.
ghost use Rattle.board.specs.Boards.{Good};

use super::*;
use crate::row_board::RowBoard;
use pair_board::PairBoard;
use pair_board::entry::Entry;
use std::process::Abort;
use table_board::TableBoard;

// What stands in a lent list before.
const BEFORE: Entry = Entry {
    task: 255,
    core: 255,
    need: 9,
    held: 9,
};

// What a call told, a refusal by its number.
fn by_number(told: Result<(), Fault>) -> Result<(), u8> {
    told.map_err(Fault::number)
}

// Each refusal of a change, with the boundary on both sides, on a clear board of 3 tasks and 2 cores.
fn refuses_in_order<B: Board>(rt: &impl Abort, board: &mut B)
    requires { Good B.build board.old }
    ensures { Good B.build board.new }
{
    let most = board.greatest_capacity(1);
    let steps = [
        (Change::Need(3, 0, 1), Err(12)),
        (Change::Need(300, 0, 65535), Err(12)),
        (Change::Need(0, 2, 1), Err(12)),
        (Change::Need(2, 1, 1), Ok(())),
        (Change::Need(2, 1, 0), Ok(())),
        (Change::Need(0, 0, 1001), Err(13)),
        (Change::Need(0, 0, 1000), Ok(())),
        (Change::Capacity(2, 65535), Err(12)),
        (Change::Capacity(1, most + 1), Err(13)),
        (Change::Capacity(1, most), Ok(())),
        (Change::Held(3, 1, 65535), Err(12)),
        (Change::Held(0, 2, 65535), Err(12)),
        (Change::Held(0, 0, 1001), Err(14)),
        (Change::Held(0, 0, 1), Err(15)),
        (Change::Capacity(0, 7), Ok(())),
        (Change::Held(0, 0, 8), Err(15)),
        (Change::Held(0, 0, 7), Ok(())),
        (Change::Capacity(0, 6), Err(15)),
        (Change::Need(0, 0, 6), Err(14)),
        (Change::Need(0, 0, 7), Ok(())),
        (Change::Held(1, 0, 1), Err(14)),
        (Change::Need(1, 0, 2), Ok(())),
        (Change::Held(1, 0, 1), Err(15)),
        (Change::Held(0, 0, 6), Ok(())),
        (Change::Held(1, 0, 1), Ok(())),
    ];
    assert_eq!(rt; first_surprise(board, &steps), None);
}

// What the board answers after those changes.
fn answers<B: Board>(rt: &impl Abort, board: &B)
    requires { Good B.build board.now }
{
    assert_eq!(rt; board.need(0, 0), 7);
    assert_eq!(rt; board.held(0, 0), 6);
    assert_eq!(rt; board.held(1, 0), 1);
    assert_eq!(rt; board.capacity(0), 7);
    assert_eq!(rt; board.need(3, 0) + board.held(0, 2) + board.capacity(2), 0);
    assert_eq!(rt; board.given(0), 7);
    assert_eq!(rt; board.free(0), 0);
    assert_eq!(rt; board.free_slots(), board.greatest_capacity(1) as u32);
    assert_eq!(rt; board.total(0), 6);
    assert_eq!(rt; board.whole_need(0), 7);
    assert_eq!(rt; board.pair_count(), 2);
}

fn is_clear<B: Board>(rt: &impl Abort, board: &B)
    requires { Good B.build board.now }
{
    assert_eq!(rt; board.pair_count(), 0);
    assert_eq!(rt; board.given(0), 0);
    assert_eq!(rt; board.free_slots(), 0);
    assert_eq!(rt; board.whole_need(0), 0);
}

// One text for every build.
fn behaves<B: Board>(rt: &impl Abort, board: &mut B)
    requires { Good B.build board.old }
{
    is_clear(rt, board);
    refuses_in_order(rt, board);
    answers(rt, board);
    board.clear();
    is_clear(rt, board);
}

#[test]
fn table_board_behaves(rt: HostRuntime) {
    let mut cells = [7; 16];
    let mut board = TableBoard::make(3, 2, &mut cells);
    assert_eq!(rt; board.greatest_pairs(), 6);
    assert_eq!(rt; board.greatest_capacity(1), 1000);
    assert_eq!(rt; board.greatest_capacity(2), 0);
    behaves(&rt, &mut board);
}

#[test]
fn pair_board_behaves(rt: HostRuntime) {
    let mut entries = [BEFORE; 6];
    let mut board = PairBoard::make(3, 2, &mut entries);
    assert_eq!(rt; board.greatest_pairs(), 6);
    assert_eq!(rt; board.greatest_capacity(1), 1000);
    behaves(&rt, &mut board);
}

#[test]
fn row_board_behaves(rt: HostRuntime) {
    let mut board = RowBoard::make(3, 2);
    assert_eq!(rt; board.greatest_capacity(1), 400);
    behaves(&rt, &mut board);
}

// The last free entry is given, the next new pair is refused, and a pair that is given up makes room for another.
#[test]
fn pair_board_reuses_entries(rt: HostRuntime) {
    let mut entries = [BEFORE; 2];
    let mut board = PairBoard::make(64, 16, &mut entries);
    assert_eq!(rt; board.greatest_pairs(), 2);
    let steps = [
        (Change::Need(63, 15, 4), Ok(())),
        (Change::Need(0, 3, 5), Ok(())),
        (Change::Need(1, 1, 6), Err(16)),
        (Change::Need(1, 1, 0), Ok(())),
        (Change::Need(0, 3, 8), Ok(())),
        (Change::Need(63, 15, 0), Ok(())),
        (Change::Need(1, 1, 6), Ok(())),
        (Change::Need(63, 15, 1), Err(16)),
    ];
    assert_eq!(rt; first_surprise(&mut board, &steps), None);
    assert_eq!(rt; board.need(0, 3), 8);
    assert_eq!(rt; board.need(1, 1), 6);
    assert_eq!(rt; board.need(63, 15), 0);
    assert_eq!(rt; board.pair_count(), 2);
}

#[test]
fn table_board_takes_every_pair(rt: HostRuntime) {
    let mut cells = [7; 5];
    let mut board = TableBoard::make(2, 1, &mut cells);
    let steps = [
        (Change::Need(0, 0, 1), Ok(())),
        (Change::Need(1, 0, 1000), Ok(())),
    ];
    assert_eq!(rt; first_surprise(&mut board, &steps), None);
    assert_eq!(rt; board.pair_count(), board.greatest_pairs());
}

#[test]
fn table_board_checks(rt: HostRuntime) {
    let cells = [7; 2064];
    assert_eq!(rt; by_number(TableBoard::check(64, 16, &cells)), Ok(()));
    assert_eq!(rt; by_number(TableBoard::check(1, 1, &cells[..3])), Ok(()));
    assert_eq!(rt; by_number(TableBoard::check(65, 1, &cells)), Err(17));
    assert_eq!(rt; by_number(TableBoard::check(1, 17, &cells)), Err(17));
    assert_eq!(rt; by_number(TableBoard::check(0, 1, &cells)), Err(17));
    assert_eq!(rt; by_number(TableBoard::check(1, 0, &cells)), Err(17));
    assert_eq!(rt;
        by_number(TableBoard::check(64, 16, &cells[..2063])),
        Err(17)
    );
}

#[test]
fn pair_board_checks(rt: HostRuntime) {
    let entries = [BEFORE; 1];
    assert_eq!(rt; by_number(PairBoard::check(64, 16, &entries)), Ok(()));
    assert_eq!(rt; by_number(PairBoard::check(65, 16, &entries)), Err(17));
    assert_eq!(rt; by_number(PairBoard::check(64, 17, &entries)), Err(17));
    assert_eq!(rt; by_number(PairBoard::check(0, 1, &entries)), Err(17));
    assert_eq!(rt; by_number(PairBoard::check(1, 0, &entries)), Err(17));
    assert_eq!(rt; by_number(PairBoard::check(1, 1, &entries[..0])), Err(17));
}

// Where a board cannot be made, it is empty and its memory is as it was.
#[test]
fn empty_board_leaves_the_memory(rt: HostRuntime) {
    let mut cells = [7; 4];
    let mut board = TableBoard::make(2, 1, &mut cells);
    assert_eq!(rt; board.tasks() + board.cores(), 0);
    assert_eq!(rt; by_number(board.set_capacity(0, 0)), Err(12));
    board.clear();
    assert_eq!(rt; cells, [7; 4]);
}

#[test]
fn numbers_past_the_board_stay(rt: HostRuntime) {
    let mut cells = [7; 4];
    let mut board = TableBoard::make(1, 1, &mut cells);
    assert_eq!(rt; by_number(board.set_need(0, 0, 3)), Ok(()));
    assert_eq!(rt; by_number(board.set_capacity(0, 2)), Ok(()));
    assert_eq!(rt; by_number(board.set_held(0, 0, 1)), Ok(()));
    assert_eq!(rt; cells, [3, 1, 2, 7]);
}

// A fault of a board has layer 2 and place 0.
#[test]
fn fault_of_a_board(rt: HostRuntime) {
    let told = RowBoard::make(3, 2).set_capacity(0, 401);
    let fault = told.expect_err(&rt, "no core of it can be given 401 slots");
    assert_eq!(rt; fault.number(), 13);
    assert_eq!(rt; fault.layer(), 2);
    assert_eq!(rt; fault.place, 0);
}
