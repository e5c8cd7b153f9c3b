use super::cases::{Case, LONGEST};
use super::lists::List;
use super::verdicts::{NoVerdict, Outcome, Verdict};
use std::test::Fail;

// A made-up call: `answer` begins with its number, and the lent list becomes sevens. It answers 0.
fn sevens(line: &[u8]) -> Outcome {
    let mut case = Case::read(line);
    if case.name != "sevens" {
        return Err(NoVerdict::NotACase);
    }
    let number = case.number::<u8>()?;
    let mut bytes = List::<u8, 4>::new();
    case.list(&mut bytes)?;
    let mut rows = List::<u64, 4>::new();
    case.matrix(&mut rows)?;
    bytes.as_mut_slice().fill(7);
    let answer = [u64::from(number), 0, 0, 0, 0, 0, 0, 0];
    case.answered(0, &answer)?
        .compare(bytes.as_slice())?
        .compare(rows.as_slice())?
        .verdict()
}

#[test]
fn judges_a_line(rt: HostRuntime) -> Result<(), Fail> {
    let lines = [
        ("sevens 7 7x4 - = 0 7 0 ; 7,7,7x2 ; -", Ok(Verdict::Agrees)),
        ("sevens 7 7 3~2 = 0 7 0 ; 7 ; 3,4", Ok(Verdict::Agrees)),
        ("sevens 7 1,2 - = 0 7 0 ; 7,7 ; -", Ok(Verdict::Agrees)),
        (
            "sevens 7 7 1x4,/2,@1:9 = 0 7 0 ; 7 ; 1,9",
            Ok(Verdict::Agrees),
        ),
        (
            "sevens 7 pairbook,/0 _1 = 0 7 0 ; - ; 4294967295",
            Ok(Verdict::Agrees),
        ),
        ("sevens 8 7 - = 0 7 0 ; 7 ; -", Ok(Verdict::Disagrees)),
        ("sevens 7 7 - = 0 7 0 ; 8 ; -", Ok(Verdict::Disagrees)),
        ("sevens 7 7 - = 0 7 0 ; 7 ; 7", Ok(Verdict::Disagrees)),
        // a number that is too large, signed or missing
        ("sevens 256 7 - = 0 7 0 ; 7 ; -", Err(NoVerdict::NotACase)),
        ("sevens +7 7 - = 0 7 0 ; 7 ; -", Err(NoVerdict::NotACase)),
        ("sevens  7 - = 0 7 0 ; 7 ; -", Err(NoVerdict::NotACase)),
        // a list that is too long, and a matrix that was
        ("sevens 7 7x5 - = 0 7 0 ; 7 ; -", Err(NoVerdict::NotACase)),
        ("sevens 7 7x5,/4 - = 0 7 0 ; 7x4 ; -", Ok(Verdict::Agrees)),
        (
            "sevens 7 7 7x5,/4 = 0 7 0 ; 7 ; 7x4",
            Err(NoVerdict::NotACase),
        ),
        // an input, a number or a list too few or too many
        ("sevens 7 7 - - = 0 7 0 ; 7 ; -", Err(NoVerdict::NotACase)),
        ("sevens 7 7 - = 0 7 ; 7 ; -", Err(NoVerdict::NotACase)),
        (
            "sevens 7 7 - = 0 7 0 0 0 0 0 0 0 0 ; 7 ; -",
            Err(NoVerdict::NotACase),
        ),
        ("sevens 7 7 - = 0 7 0 ; 7", Err(NoVerdict::NotACase)),
        ("sevens 7 7 - = 0 7 0 ; 7 ; - ; -", Err(NoVerdict::NotACase)),
        // nothing stored
        ("sevens 7 7 -", Err(NoVerdict::NotACase)),
    ];
    for (line, wanted) in lines {
        assert_eq!(rt; sevens(line.as_bytes()), wanted, "at {line}");
    }
    Ok(())
}

#[test]
fn names_any_line(rt: HostRuntime) -> Result<(), Fail> {
    let lines: [(&[u8], &str); 7] = [
        (b"", ""),
        (b" = 0 7 0", ""),
        (b"sevens", "sevens"),
        (b"sevens 7 7 -", "sevens"),
        (b"sevens = 0 7 0", "sevens"),
        (b"sevens \xff = 0 7 0", "sevens"),
        (b"sevens\xff 7 7 - = 0 7 0 ; 7 ; -", ""),
    ];
    for (place, (line, name)) in lines.into_iter().enumerate() {
        assert_eq!(rt; Case::read(line).name, name, "line {place}");
        assert_eq!(rt; sevens(line), Err(NoVerdict::NotACase), "line {place}");
    }
    Ok(())
}

#[test]
fn takes_the_longest_list(rt: HostRuntime) -> Result<(), Fail> {
    let line = b"- windowtable,pairtable = 0 0 0";
    let mut case = Case::read(line);
    let mut list = List::<u16, LONGEST>::new();
    let read = case.list(&mut list);
    assert_eq!(rt; read.map(|()| list.as_slice().len()), Ok(8192));
    Ok(())
}

// Where no input is left, nothing that is stored is given out for one.
#[test]
fn ends_the_inputs_where_the_answer_begins(rt: HostRuntime) -> Result<(), Fail> {
    let mut case = Case::read(b"sevens 7 = 0 7 0");
    let none = Err(NoVerdict::NotACase);
    assert_eq!(rt; case.number::<u8>(), Ok(7));
    assert_eq!(rt; case.number::<u8>(), Err(NoVerdict::NotACase));
    assert_eq!(rt; case.list(&mut List::<u8, 4>::new()), none);
    assert_eq!(rt; case.matrix(&mut List::<u64, 4>::new()), none);
    assert_eq!(rt; case.matrix_into(&mut [0; 4]), Err(NoVerdict::NotACase));
    let answered = case.answered(0, &[7, 0, 0, 0, 0, 0, 0, 0]);
    assert_eq!(rt;
        answered.and_then(|answered| answered.verdict()),
        Ok(Verdict::Agrees)
    );
    Ok(())
}

#[test]
fn takes_a_matrix_into_lent_memory(rt: HostRuntime) -> Result<(), Fail> {
    let line = b"- 3~2,9 1x5,/4 1x4,/2 7 = 0 0 0";
    let mut case = Case::read(line);
    let mut rows = [5; 4];
    assert_eq!(rt; case.matrix_into(&mut rows), Ok(3));
    assert_eq!(rt; rows, [3, 4, 9, 5]);
    assert_eq!(rt; case.matrix_into(&mut rows), Err(NoVerdict::NotACase));
    assert_eq!(rt; case.matrix_into(&mut rows), Ok(2));
    assert_eq!(rt; case.matrix_into(&mut []), Err(NoVerdict::NotACase));
    Ok(())
}
