// Reports against ones written out by hand.
use crate::samples::{files, found};
use std::alloc::Global;
use std::test::Fail;
use sv_model::{
    End, FamilyId, FamilyLine, FileNumber, Items, Name, OutOfMemory, Refusal, Summary, Totals,
};
use sv_script::{LaneReport, Reply, Tail, report_text, tail_text};

// The replies of a lane that makes a family, drops it, reads on through its handle, and lets go of it.
fn replies_around_a_drop(alloc: Global) -> Result<Items<(u64, Reply)>, Refusal> {
    let flush = Reply::Flush {
        number: FileNumber(1),
        from: 0,
        to: 1,
    };
    let value = found(alloc, b"7")?;
    let none = files(alloc, &[])?;
    let one = files(alloc, &[1])?;
    let replies = vec![in alloc;
        (1, Reply::Create(FamilyId(1))),
        (2, Reply::Put(1)),
        (3, flush),
        (4, Reply::Drop),
        (5, value),
        (6, Reply::Refused(Refusal::Dropped)),
        (7, Reply::Refused(Refusal::Dropped)),
        (8, Reply::Refused(Refusal::Dropped)),
        (9, Reply::Purge(none)),
        (10, Reply::Release),
        (11, Reply::Refused(Refusal::NoFamily)),
        (12, Reply::Purge(one)),
    ];
    Ok(Items::from_vec(replies.map_err(OutOfMemory::from)?))
}

const ONE_USE: Tail = Tail {
    uses: 1,
    misses: 1,
    swept: 0,
};

const FEW: Totals = Totals {
    superversions: 4,
    memtables: 3,
    files: 1,
};

fn family(
    alloc: Global,
    id: u8,
    name: &[u8],
    dropped: bool,
    numbers: &[u64],
) -> Result<FamilyLine, Fail> {
    let name = Name::new(name).ok_or("no name")?;
    Ok(FamilyLine {
        id: FamilyId(id),
        name,
        dropped,
        writes: id as u64,
        files: files(alloc, numbers)?,
    })
}

fn summary(alloc: Global, end: End, left: &[u64]) -> Result<Summary, Fail> {
    let mut families = Items::from_vec(Vec::new(alloc));
    families.push(family(alloc, 0, b"default", false, left)?)?;
    families.push(family(alloc, 1, b"cold", true, &[])?)?;
    Ok(Summary {
        families,
        made: FEW,
        gone: FEW,
        strays_seen: 0,
        strays_gone: 0,
        end,
        left: files(alloc, left)?,
    })
}

const AROUND_A_DROP: &str = "lane 1
1 ok create 1
2 ok put 1
3 ok flush file 1 from 0 to 1
4 ok drop
5 found 7 cut 1 sv 4
6 refused 11 Dropped
7 refused 11 Dropped
8 refused 11 Dropped
9 ok purge
10 ok release
11 refused 7 NoFamily
12 ok purge 1
lane 1 uses 1 misses 1 swept 0
family 0 default live writes 0 files none
family 1 cold dropped writes 1 files none
made superversions 4 memtables 3 files 1
gone superversions 4 memtables 3 files 1
strays seen 0 gone 0
end clean
";

#[test]
fn prints_a_report(rt: HostRuntime) -> Result<(), Fail> {
    let alloc = rt.alloc();
    let mut lanes = Vec::new(alloc);
    lanes.push(LaneReport {
        lane: 1,
        replies: replies_around_a_drop(alloc)?,
        counts: ONE_USE,
    })?;
    let printed = report_text(alloc, lanes.as_slice(), &summary(alloc, End::Clean, &[])?)?;
    assert_eq!(rt; printed.as_slice(), AROUND_A_DROP.as_bytes());
    let tail = tail_text(alloc, 1, &ONE_USE)?;
    assert_eq!(rt;
        tail.as_slice(),
        b"lane 1 uses 1 misses 1 swept 0\n".as_slice()
    );
    Ok(())
}

const AFTER_A_FAULT: &str = "family 0 default live writes 0 files 3 50
family 1 cold dropped writes 1 files none
made superversions 4 memtables 3 files 1
gone superversions 4 memtables 3 files 1
strays seen 0 gone 0
end left 3 50
";

const WITHOUT_MEMORY: &str = "family 0 default live writes 0 files 3 50
family 1 cold dropped writes 1 files none
made superversions 4 memtables 3 files 1
gone superversions 4 memtables 3 files 1
strays seen 0 gone 0
end no memory left 3 50
";

#[test]
fn prints_what_was_left(rt: HostRuntime) -> Result<(), Fail> {
    let alloc = rt.alloc();
    for (end, due) in [
        (End::DirFault, AFTER_A_FAULT),
        (End::OutOfMemory, WITHOUT_MEMORY),
    ] {
        let printed = report_text(alloc, &[], &summary(alloc, end, &[3, 50])?)?;
        assert_eq!(rt; printed.as_slice(), due.as_bytes());
    }
    Ok(())
}
