// The book of file numbers: captures, the bound, holds, and what is handed out for removal.
use crate::books::{
    capture, end_job, find, gave, left, refused, retire, scan, settle, take, ungrab,
};
use std::alloc::Global;
use std::rt::HostRuntime;
use sv_files::{FileBook, Settled};
use sv_model::{FamilyId, FileNumber, FileStatus, MAX_CAPTURED, Refusal};

#[test]
fn captures_and_settles(rt: HostRuntime) {
    let mut book = FileBook::new(rt.alloc(), FileNumber(10));
    assert_eq!(rt; book.bound(), u64::MAX);
    for (family, number, bound) in [(3, 10, 10), (0, 11, 10), (15, 12, 10)] {
        assert_eq!(rt; capture(&mut book, family), Ok(FileNumber(number)));
        assert_eq!(rt; capture(&mut book, family), Err(Refusal::Busy { number }));
        assert_eq!(rt; book.busy(FamilyId(family)), Some(FileNumber(number)));
        assert_eq!(rt; book.status(FileNumber(number)), Some(FileStatus::Pending));
        assert_eq!(rt; book.bound(), bound);
        assert_eq!(rt; book.next(), FileNumber(number + 1));
    }
    for (number, settled, bound) in [
        (10, Settled::Obsolete, 11),
        (12, Settled::Live, 11),
        (11, Settled::Obsolete, u64::MAX),
    ] {
        assert!(rt; settle(&mut book, number, settled));
        assert_eq!(rt; book.bound(), bound);
    }
    for family in [0, 3, 15] {
        assert_eq!(rt; book.busy(FamilyId(family)), None);
    }
    assert!(rt; gave(left(&book), &[10, 11]));
    assert!(rt; retire(&mut book, 12));
    assert!(rt; gave(left(&book), &[10, 11, 12]));
    assert_eq!(rt; book.status(FileNumber(13)), None);
    assert_eq!(rt; (book.made(), book.gone()), (3, 0));
    assert_eq!(rt; (book.strays_seen(), book.strays_gone()), (0, 0));
}

#[test]
fn refuses_the_greatest_number(rt: HostRuntime) {
    let mut book = FileBook::new(rt.alloc(), FileNumber(u64::MAX - 1));
    assert!(rt; !book.is_full());
    assert_eq!(rt; capture(&mut book, 0), Ok(FileNumber(u64::MAX - 1)));
    assert!(rt; book.is_full());
    assert_eq!(rt; capture(&mut book, 1), Err(Refusal::RegisterFull));
    assert_eq!(rt; book.busy(FamilyId(1)), None);
}

#[test]
fn holds_for_each_lane(rt: HostRuntime) {
    let mut book = FileBook::new(rt.alloc(), FileNumber(1));
    for (lane, up, answer, all) in [
        (3, false, Err(Refusal::NoHold), 0),
        (3, true, Ok(1), 1),
        (31, true, Ok(1), 2),
        (3, true, Ok(2), 3),
        (0, false, Err(Refusal::NoHold), 3),
        (3, false, Ok(1), 2),
        (3, false, Ok(0), 1),
        (3, false, Err(Refusal::NoHold), 1),
        (31, false, Ok(0), 0),
    ] {
        let count = if up {
            book.hold(lane)
        } else {
            book.unhold(lane)
        };
        assert_eq!(rt; count, answer);
        assert_eq!(rt; book.holds(), all);
    }
    for count in 1..=255 {
        assert_eq!(rt; book.hold(7), Ok(count));
    }
    assert_eq!(rt; book.hold(7), Err(Refusal::TooManyHolds));
    assert_eq!(rt; book.hold(8), Ok(1));
    assert_eq!(rt; book.holds(), 256);
    assert_eq!(rt; book.unhold(7), Ok(254));
}

#[test]
fn is_disabled_while_a_hold_stands(rt: HostRuntime) {
    let mut book = FileBook::new(rt.alloc(), FileNumber(5));
    assert_eq!(rt; capture(&mut book, 0), Ok(FileNumber(5)));
    assert!(rt; settle(&mut book, 5, Settled::Obsolete));
    assert_eq!(rt; book.hold(0), Ok(1));
    assert_eq!(rt; book.hold(9), Ok(1));
    let disabled = Refusal::Disabled { count: 2 };
    assert!(rt; refused(book.ready(), disabled));
    assert!(rt; refused(find(&mut book), disabled));
    assert!(rt; refused(scan(rt.alloc(), &mut book, &[2]), disabled));
    assert!(rt; !take(&mut book, 5));
    assert_eq!(rt; book.status(FileNumber(2)), None);
    assert!(rt; gave(left(&book), &[5]));
    assert_eq!(rt; book.unhold(9), Ok(0));
    assert!(rt; refused(find(&mut book), Refusal::Disabled { count: 1 }));
    assert_eq!(rt; book.unhold(0), Ok(0));
    assert_eq!(rt; book.jobs(), 0);
    assert!(rt; gave(find(&mut book), &[5]));
    assert_eq!(rt; book.jobs(), 1);
}

#[test]
fn takes_one_number_at_a_time(rt: HostRuntime) {
    let mut book = FileBook::new(rt.alloc(), FileNumber(1));
    for number in [1, 2] {
        assert_eq!(rt; capture(&mut book, 0), Ok(FileNumber(number)));
        assert!(rt; settle(&mut book, number, Settled::Obsolete));
    }
    assert!(rt; gave(book.ready(), &[1, 2]));
    assert!(rt; take(&mut book, 1));
    assert!(rt; !take(&mut book, 1));
    assert!(rt; gave(book.ready(), &[2]));
    assert_eq!(rt; book.hold(2), Ok(1));
    assert!(rt; !take(&mut book, 2));
    assert_eq!(rt; book.jobs(), 1);
    assert!(rt; ungrab(&mut book, 1, true));
    end_job(&mut book);
    assert_eq!(rt; book.jobs(), 0);
    assert_eq!(rt; book.status(FileNumber(1)), Some(FileStatus::Gone));
    assert_eq!(rt; book.status(FileNumber(2)), Some(FileStatus::Obsolete));
}

// Numbers 10 to 15, of which 10 is Gone, 11 Grabbed, 12 Live, 13 and 15 Obsolete, and 14 captured, so that the bound
// is 14.
fn of_all_kinds(alloc: Global) -> FileBook {
    let mut book = FileBook::new(alloc, FileNumber(10));
    for (number, settled) in [
        (10, Settled::Obsolete),
        (11, Settled::Live),
        (12, Settled::Live),
        (13, Settled::Obsolete),
    ] {
        let _ = capture(&mut book, 0);
        settle(&mut book, number, settled);
    }
    let _ = capture(&mut book, 3);
    let _ = capture(&mut book, 0);
    settle(&mut book, 15, Settled::Obsolete);
    retire(&mut book, 11);
    take(&mut book, 10);
    take(&mut book, 11);
    ungrab(&mut book, 10, true);
    end_job(&mut book);
    end_job(&mut book);
    book
}

#[test]
fn finds_what_is_obsolete_below_the_bound(rt: HostRuntime) {
    let mut book = of_all_kinds(rt.alloc());
    for (number, status) in [
        (9, None),
        (10, Some(FileStatus::Gone)),
        (11, Some(FileStatus::Grabbed)),
        (12, Some(FileStatus::Live)),
        (13, Some(FileStatus::Obsolete)),
        (14, Some(FileStatus::Pending)),
        (15, Some(FileStatus::Obsolete)),
        (16, None),
    ] {
        assert_eq!(rt; book.status(FileNumber(number)), status);
    }
    assert_eq!(rt; book.bound(), 14);
    assert!(rt; gave(left(&book), &[13, 15]));
    assert!(rt; gave(book.ready(), &[13]));
    assert!(rt; !take(&mut book, 15));
    assert!(rt; !take(&mut book, 14));
    assert!(rt; gave(find(&mut book), &[13]));
    assert!(rt; gave(find(&mut book), &[]));
    assert_eq!(rt; book.jobs(), 2);
    assert!(rt; ungrab(&mut book, 13, false));
    assert!(rt; settle(&mut book, 14, Settled::Obsolete));
    assert!(rt; gave(find(&mut book), &[13, 14, 15]));
    assert!(rt; ungrab(&mut book, 14, true));
    assert_eq!(rt; (book.made(), book.gone()), (6, 2));
    assert!(rt; gave(left(&book), &[]));
}

#[test]
fn scans_for_strays(rt: HostRuntime) {
    let mut book = of_all_kinds(rt.alloc());
    let listed = [5, 16, 10, 11, 3, 12, 13, 14, 15, 20, 3, 9];
    assert!(rt; gave(scan(rt.alloc(), &mut book, &listed), &[3, 5, 9, 13]));
    assert_eq!(rt; book.jobs(), 1);
    assert_eq!(rt; book.status(FileNumber(3)), Some(FileStatus::Grabbed));
    assert_eq!(rt; book.status(FileNumber(16)), None);
    assert!(rt; gave(scan(rt.alloc(), &mut book, &listed), &[]));
    for (number, gone) in [(3, true), (5, false), (13, true)] {
        assert!(rt; ungrab(&mut book, number, gone));
    }
    assert!(rt; gave(scan(rt.alloc(), &mut book, &[3, 5, 9]), &[5]));
    assert!(rt; gave(scan(rt.alloc(), &mut book, &[]), &[]));
    assert_eq!(rt; (book.strays_seen(), book.strays_gone()), (3, 1));
    assert_eq!(rt; (book.made(), book.gone()), (6, 2));
}

#[test]
fn opens_with_named_numbers(rt: HostRuntime) {
    let files = [
        (FamilyId(0), FileNumber(7)),
        (FamilyId(15), FileNumber(2)),
        (FamilyId(0), FileNumber(9)),
    ];
    let Ok(mut book) = FileBook::named(rt.alloc(), FileNumber(10), &files) else {
        panic!(rt; "no memory");
    };
    assert_eq!(rt;
        (book.made(), book.next(), book.bound()),
        (3, FileNumber(10), u64::MAX)
    );
    assert!(rt; gave(scan(rt.alloc(), &mut book, &[2, 8, 7, 1, 9, 10]), &[1, 8]));
    assert!(rt; retire(&mut book, 7));
    assert!(rt; gave(book.ready(), &[7]));
    assert_eq!(rt; capture(&mut book, 15), Ok(FileNumber(10)));
}

// A captured number that is Live goes at once: it is all that is found.
fn goes_at_once(book: &mut FileBook, number: u64) -> bool {
    let found = retire(book, number) && gave(find(book), &[number]);
    let gone = ungrab(book, number, true);
    end_job(book);
    found && gone && gave(book.ready(), &[])
}

// As many numbers as may be captured. Every second one goes at once, the others stay Live until all are captured; then
// they go too, but for those above a million.
#[test]
fn finds_at_a_flat_cost(rt: HostRuntime) {
    let mut book = FileBook::new(rt.alloc(), FileNumber(1));
    for number in 1..=MAX_CAPTURED as u64 {
        assert_eq!(rt; capture(&mut book, 0), Ok(FileNumber(number)));
        assert!(rt; gave(book.ready(), &[]));
        assert!(rt; settle(&mut book, number, Settled::Live));
        assert!(rt; number % 2 == 0 || goes_at_once(&mut book, number));
    }
    assert_eq!(rt; capture(&mut book, 0), Err(Refusal::RegisterFull));
    assert_eq!(rt; (book.made(), book.gone()), (1_048_576, 524_288));
    for half in 1..=500_000 {
        assert!(rt; goes_at_once(&mut book, 2 * half));
    }
    assert_eq!(rt; (book.made(), book.gone()), (1_048_576, 1_024_288));
    assert!(rt; gave(find(&mut book), &[]));
}

// A hold keeps very many numbers Obsolete, which are then handed out one by one.
#[test]
fn takes_many_that_waited(rt: HostRuntime) {
    let mut book = FileBook::new(rt.alloc(), FileNumber(1));
    assert_eq!(rt; book.hold(0), Ok(1));
    for number in 1..=500_000 {
        assert_eq!(rt; capture(&mut book, 0), Ok(FileNumber(number)));
        assert!(rt; settle(&mut book, number, Settled::Obsolete));
    }
    assert_eq!(rt; book.unhold(0), Ok(0));
    for number in 1..=500_000 {
        assert!(rt; take(&mut book, number));
        assert!(rt; ungrab(&mut book, number, true));
        end_job(&mut book);
    }
    assert!(rt; gave(find(&mut book), &[]));
    assert_eq!(rt; book.gone(), 500_000);
}
