// Plans that can be checked on paper, on boards of both builds, and what the judge shows of plans that are not fairest.
use super::*;
use judge::{Verdict, judge};
use pair_board::PairBoard;
use pair_board::entry::BLANK;
use routes::Step;
use rules::{ByNeed, Even, Weighted};
use std::test::Fail;
use table_board::TableBoard;
use tasks::table::TaskTable;

// One order levelled on a table board and on a pair board.
fn on_both<R: Rule>(
    rule: R,
    tasks: usize,
    capacities: [u16; 2],
    needs: &[[u16; 2]],
) -> [([u32; 4], u32); 2] {
    let mut numbers = [0; 18];
    let mut entries = [BLANK; 8];
    let mut table = TableBoard::make(tasks, 2, &mut numbers);
    let mut pairs = PairBoard::make(tasks, 2, &mut entries);
    fill(&mut table, capacities, needs);
    fill(&mut pairs, capacities, needs);
    [planned(&mut table, rule), planned(&mut pairs, rule)]
}

// Each core shared by itself would give 1 and 5, or 2 and 4.
#[test]
fn cores_make_up_for_each_other(rt: HostRuntime) {
    let [table, pairs] = on_both(Even, 2, [3, 3], &[[3, 0], [3, 3]]);
    assert!(rt; table.0 == [3, 3, 0, 0] && table.1 == 0);
    assert!(rt; pairs.0 == [3, 3, 0, 0] && pairs.1 == 0);
}

#[test]
fn a_slot_stays_free(rt: HostRuntime) {
    let [table, pairs] = on_both(Even, 2, [4, 3], &[[3, 1], [0, 2]]);
    assert!(rt; table.0 == [4, 2, 0, 0] && table.1 == 1);
    assert!(rt; pairs.0 == [4, 2, 0, 0] && pairs.1 == 1);
}

// 20 slots among four tasks, one of which needs only 4: the others share 16, and one of them has one more than the others.
#[test]
fn an_odd_slot(rt: HostRuntime) {
    let [table, pairs] = on_both(Even, 4, [20, 0], &[[8, 0], [4, 0], [10, 0], [40, 0]]);
    assert!(rt; table.0[1] == 4 && pairs.0[1] == 4);
    assert!(rt; table.0[0] >= 5 && table.0[2] >= 5 && table.0[3] >= 5 && table.1 == 0);
    assert!(rt; pairs.0[0] >= 5 && pairs.0[2] >= 5 && pairs.0[3] >= 5 && pairs.1 == 0);
}

#[test]
fn weights_and_needs(rt: HostRuntime) {
    let mut weights = [1; 64];
    weights[1] = 2;
    let [table, pairs] = on_both(Weighted::new(weights), 2, [1, 0], &[[1, 0], [1, 0]]);
    assert!(rt; table.0 == [1, 0, 0, 0] && pairs.0 == [1, 0, 0, 0]);
    let [table, pairs] = on_both(ByNeed, 2, [6, 0], &[[4, 0], [8, 0]]);
    assert!(rt; table.0 == [2, 4, 0, 0] && pairs.0 == [2, 4, 0, 0]);
}

// Tasks that share a core differ by one, and yet a slot should go from the third task over the second to the first.
#[test]
fn the_judge_shows_a_route(rt: HostRuntime) -> Result<(), Fail> {
    let mut numbers = [0; 14];
    let mut board = TableBoard::make(3, 2, &mut numbers);
    fill(&mut board, [2, 4], &[[2, 0], [2, 4], [0, 4]]);
    let _ = board.set_held(0, 0, 1);
    let _ = board.set_held(1, 0, 1);
    let _ = board.set_held(1, 1, 1);
    let _ = board.set_held(2, 1, 3);
    let mut route = [Step { task: 9, core: 9 }; 16];
    let Ok(Verdict::Route { steps, loser }) = judge(&board, Even, &mut route) else {
        return Err(Fail::new("no route"));
    };
    assert_eq!(rt; steps, 2);
    assert_eq!(rt; loser, 2);
    assert!(rt;
        route[0].task == 0 && route[0].core == 0 && route[1].task == 1 && route[1].core == 1
    );
    assert!(rt; route[2].task == 9 && route[15].core == 9);
    Ok(())
}

#[test]
fn the_judge_shows_a_free_slot(rt: HostRuntime) -> Result<(), Fail> {
    let mut entries = [BLANK; 4];
    let mut board = PairBoard::make(2, 2, &mut entries);
    fill(&mut board, [0, 3], &[[2, 0], [2, 4]]);
    let mut route = [Step { task: 9, core: 9 }; 16];
    let Ok(Verdict::Free { core, task }) = judge(&board, Even, &mut route) else {
        return Err(Fail::new("no free slot"));
    };
    assert!(rt; core == 1 && task == 1 && route[0].task == 9);
    assert!(rt; judge(&board, Even, &mut route[0..15]).is_err());
    Ok(())
}

// Only over all 16 cores does a slot reach the first task.
#[test]
fn a_route_over_all_cores(rt: HostRuntime) -> Result<(), Fail> {
    let mut numbers = [0; 560];
    let mut board = TableBoard::make(17, 16, &mut numbers);
    chain(&mut board, 3);
    let mut route = [Step { task: 99, core: 99 }; 16];
    let Ok(Verdict::Route { steps, loser }) = judge(&board, Even, &mut route) else {
        return Err(Fail::new("no route"));
    };
    assert_eq!(rt; steps, 16);
    assert_eq!(rt; loser, 16);
    assert!(rt; route[15].task == 15 && route[15].core == 15);
    Ok(())
}

// Of all routes only the one over all 16 cores makes the plan fairer.
#[test]
fn the_only_route_is_over_all_cores(rt: HostRuntime) -> Result<(), Fail> {
    let mut numbers = [0; 560];
    let mut board = TableBoard::make(17, 16, &mut numbers);
    chain(&mut board, 2);
    let mut route = [Step { task: 99, core: 99 }; 16];
    let Ok(Verdict::Route { steps, loser }) = judge(&board, Even, &mut route) else {
        return Err(Fail::new("no route"));
    };
    assert_eq!(rt; steps, 16);
    assert_eq!(rt; loser, 16);
    assert!(rt; route[15].task == 15 && route[15].core == 15);
    Ok(())
}

// Five slots for the seven that the one task needs: the file has the plan.
#[test]
fn a_released_plan_is_written(rt: HostRuntime) -> Result<(), Fail> {
    let mut numbers = [0; 3];
    let mut board = TableBoard::make(1, 1, &mut numbers);
    let _ = board.set_capacity(0, 5);
    let _ = board.set_need(0, 0, 7);
    let mut tasks = TaskTable::new();
    let _ = tasks.push(0, 1, b"pump");
    let mut file = [9; 48];
    let Ok(length) = written(&mut board, Even, &tasks, b'e', &mut file) else {
        return Err(Fail::new("not written"));
    };
    assert_eq!(rt; length, 46);
    assert!(rt; file[0..7] == [5, 0, 1, 0, 101, 1, 1] && file[7..14] == [5, 0, 2, 0, 0, 5, 0]);
    assert!(rt; file[14..24] == [8, 0, 3, 0, 0, 1, 112, 117, 109, 112]);
    assert!(rt;
        file[24..32] == [6, 0, 4, 0, 0, 0, 7, 0] && file[32..40] == [6, 0, 5, 0, 0, 0, 5, 0]
    );
    assert!(rt; file[40..48] == [4, 0, 6, 0, 5, 0, 9, 9]);
    Ok(())
}
