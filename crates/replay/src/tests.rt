use std::test::Fail;
use stored_cases::cases::Case;
use stored_cases::verdicts::{NoVerdict, Outcome, Verdict};

// What each crate makes of a case.
fn of_a_case(case: Case<'_>) -> [Option<Outcome>; 5] {
    [
        replay_numbers::run(case),
        replay_books::run(case),
        replay_streams::run(case),
        replay_tables::run(case),
        replay_unions::run(case),
    ]
}

// What each makes of a line.
fn of_a_line(line: &[u8]) -> [Option<Outcome>; 5] {
    [
        replay_numbers::run_line(line),
        replay_books::run_line(line),
        replay_streams::run_line(line),
        replay_tables::run_line(line),
        replay_unions::run_line(line),
    ]
}

// One crate runs a line's call; and it runs the case as it runs the line.
#[test]
fn runs_a_case_as_its_line(rt: HostRuntime) -> Result<(), Fail> {
    let agrees = Ok(Verdict::Agrees);
    let disagrees = Ok(Verdict::Disagrees);
    let no_case = Err(NoVerdict::NotACase);
    let lines: [(usize, &[u8], Outcome); 16] = [
        (0, b"words_for 0 = 0 0 0 0", agrees),
        (0, b"rows 4 = 0 0 0 16", agrees),
        (0, b"rows 4 = 0 0 0 17", disagrees),
        (0, b"rows 4 4 = 0 0 0 16", no_case),
        (1, b"check_book pairbook = 0 0 0", agrees),
        (1, b"check_book pairbook = 3 0 0", disagrees),
        (1, b"practice_pair_book 9x65", no_case),
        (2, b"judge_pairs 4 - = 0 0 0", agrees),
        (2, b"judge_pairs 4 7,7 = 0 0 0", disagrees),
        (2, b"judge_pairs 4 \xff = 0 0 0", no_case),
        (
            3,
            b"table_new 2 10 7x8 9x8 = 0 0 0 2 10 0 ; _8 ; _8",
            agrees,
        ),
        (
            3,
            b"table_new 2 10 7x8 9x8 = 0 0 0 2 10 0 ; _8 ; 9x8",
            disagrees,
        ),
        (3, b"table_new 2 10 7x8 9x8 = 0 0 0 2 10 0 ; _8", no_case),
        (4, b"count 4 0x16 = 0 0 0 0", agrees),
        (4, b"count 4 1x16 = 0 0 0 0", disagrees),
        (4, b"count = 0 0 0 0", no_case),
    ];
    for (by, line, wanted) in lines {
        let mut all = [None; 5];
        all[by] = Some(wanted);
        assert_eq!(rt; of_a_case(Case::read(line)), all);
        assert_eq!(rt; of_a_line(line), all);
    }
    assert_eq!(rt; of_a_line(b"\xff"), [None; 5]);
    Ok(())
}

// Of a case whose first input was taken, what is left of it runs.
#[test]
fn runs_what_is_left_of_a_case(rt: HostRuntime) -> Result<(), Fail> {
    let mut case = Case::read(b"rows 4 4 = 0 0 0 16");
    assert_eq!(rt; replay_numbers::run(case), Some(Err(NoVerdict::NotACase)));
    assert_eq!(rt; case.number::<u8>(), Ok(4));
    assert_eq!(rt; replay_numbers::run(case), Some(Ok(Verdict::Agrees)));
    let mut case = Case::read(b"rows = 4 = 0 0 0 16");
    assert_eq!(rt; case.number::<u8>(), Err(NoVerdict::NotACase));
    assert_eq!(rt; replay_numbers::run(case), Some(Err(NoVerdict::NotACase)));
    Ok(())
}
