// What the report prints of files that are right, and of files that are refused.
use super::*;
use file_tests::{SAMPLE, largest_file};
use std::test::Fail;

#[test]
fn a_plan(rt: HostRuntime) -> Result<(), Fail> {
    let text = "bus              3   50.0%\nlog              3   50.0%\nfree             0\n";
    assert!(rt; shows(rt.alloc(), &SAMPLE, text)?);
    Ok(())
}

#[test]
fn a_refusal(rt: HostRuntime) -> Result<(), Fail> {
    assert!(rt;
        refuses(
            rt.alloc(),
            &[4, 0, 1, 0, 0x65, 2],
            "refused 5 layer 1 place 0\n"
        )?
    );
    assert!(rt; refuses(rt.alloc(), &[], "refused 2 layer 1 place 0\n")?);
    assert!(rt; refuses(rt.alloc(), &SAMPLE[0..60], "refused 2 layer 1 place 55\n")?);
    Ok(())
}

// Each rule decides here which plan is the only fairest.
#[test]
fn each_letter(rt: HostRuntime) -> Result<(), Fail> {
    let even = two_tasks(b'e', 7, [1, 2], [3, 8]);
    assert!(rt;
        shows(
            rt.alloc(),
            &even,
            "a                3   42.8%\nb                4   57.1%\nfree             0\n"
        )?
    );
    let weighted = two_tasks(b'w', 1, [1, 2], [1, 1]);
    assert!(rt;
        shows(
            rt.alloc(),
            &weighted,
            "a                1  100.0%\nb                0    0.0%\nfree             0\n"
        )?
    );
    let by_need = two_tasks(b'n', 6, [1, 1], [4, 8]);
    assert!(rt;
        shows(
            rt.alloc(),
            &by_need,
            "a                2   33.3%\nb                4   66.6%\nfree             0\n"
        )?
    );
    Ok(())
}

// No capacity at all, and then more than anybody needs.
#[test]
fn shares_at_the_bounds(rt: HostRuntime) -> Result<(), Fail> {
    let none = two_tasks(b'e', 0, [1, 1], [3, 8]);
    assert!(rt;
        shows(
            rt.alloc(),
            &none,
            "a                0    0.0%\nb                0    0.0%\nfree             0\n"
        )?
    );
    let plenty = two_tasks(b'e', 100, [1, 1], [3, 8]);
    assert!(rt;
        shows(
            rt.alloc(),
            &plenty,
            "a                3    3.0%\nb                8    8.0%\nfree            89\n"
        )?
    );
    Ok(())
}

#[test]
fn no_needs(rt: HostRuntime) -> Result<(), Fail> {
    let file = [
        5, 0, 1, 0, 0x6E, 1, 1, 5, 0, 2, 0, 0, 9, 0, 5, 0, 3, 0, 0, 1, b'x', 4, 0, 6, 0, 3, 0,
    ];
    assert!(rt;
        shows(
            rt.alloc(),
            &file,
            "x                0    0.0%\nfree             9\n"
        )?
    );
    Ok(())
}

// 64 tasks on 16 cores of capacity 1,000: all weights are equal, so each task has 250 of the 16,000 slots.
#[test]
fn the_largest_order(rt: HostRuntime) -> Result<(), Fail> {
    let file = largest_file();
    let Report::Plan(text) = report_of(rt.alloc(), file.as_slice())? else {
        assert!(rt; false);
        return Ok(());
    };
    assert_eq!(rt; text.len(), 64 * 27 + 19);
    assert!(rt; text.ends_with("task-------`   250    1.5%\nfree             0\n"));
    Ok(())
}
