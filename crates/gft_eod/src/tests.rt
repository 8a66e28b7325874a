use super::*;
use std::process::Abort;
use std::test::Fail;

/// A header's EOF or EOD.
#[derive(Clone, Copy, Debug)]
enum Told {
    Eof(u64),
    Eod,
}

/// The answer to the last of these, and the count behind it.
fn tell(told: &[Told]) -> (Result<(), EodError>, EodCount) {
    let mut count = EodCount::new();
    let mut answer = Ok(());
    for &each in told {
        answer = match each {
            Told::Eof(total) => count.eof(total),
            Told::Eod => count.eod(),
        };
    }
    (answer, count)
}

#[test]
fn answers_by_the_counts(rt: HostRuntime) -> Result<(), Fail> {
    use Told::{Eod, Eof};
    let too_many = Err(EodError::TooManyEods { total: 1 });
    let two = Err(EodError::TwoTotals { kept: 2, new: 1 });
    let bad = Err(EodError::BadTotal { total: 1025 });
    let rows: [(&[Told], Result<(), EodError>, Option<u64>, u64, bool); 7] = [
        (&[Eod, Eod, Eof(1)], too_many, None, 2, false),
        (&[Eof(1), Eod, Eod], too_many, Some(1), 1, true),
        (&[Eof(2), Eod, Eod, Eof(2)], Ok(()), Some(2), 2, true),
        (&[Eof(2), Eod, Eod, Eof(1)], two, Some(2), 2, true),
        (
            &[Eof(0)],
            Err(EodError::BadTotal { total: 0 }),
            None,
            0,
            false,
        ),
        (&[Eof(1024), Eof(1025)], bad, Some(1024), 0, false),
        (&[Eod, Eof(1024)], Ok(()), Some(1024), 1, false),
    ];
    for (told, answer, total, eods, met) in rows {
        let (last, count) = tell(told);
        assert_eq!(rt; last, answer, "{told:?}");
        assert_eq!(rt; count.total(), total, "{told:?}");
        assert_eq!(rt; count.eods(), eods, "{told:?}");
        assert_eq!(rt; count.is_met(), met, "{told:?}");
    }
    Ok(())
}

#[test]
fn after_1024_eods_one_more_is_refused(rt: HostRuntime) -> Result<(), Fail> {
    let mut count = EodCount::new();
    for _ in 0..1024 {
        assert_eq!(rt; count.eod(), Ok(()));
    }
    assert_eq!(rt; count.eod(), Err(EodError::TooManyEods { total: 1024 }));
    assert_eq!(rt; count.eof(1024), Ok(()));
    assert!(rt; count.is_met());
    Ok(())
}

#[test]
fn errors_have_their_texts(rt: HostRuntime) -> Result<(), Fail> {
    let (total, kept, new) = (1025, 2, 3);
    let rows = [
        (
            EodError::BadTotal { total },
            "1025 EODs are announced: 1 to 1024 may be",
        ),
        (
            EodError::TwoTotals { kept, new },
            "3 EODs are announced after 2",
        ),
        (EodError::TooManyEods { total }, "more than 1025 EODs"),
    ];
    for (error, text) in rows {
        assert_eq!(rt; error.to_string(rt.alloc())?.as_str(), text);
    }
    Ok(())
}
