// Whole reports of scripts with several families, written out by hand.
use crate::runs::expect_run;
use std::alloc::{AllocError, Global};
use std::test::Fail;

// Each script with its report.
const ROWS: [(&str, &str); 4] = [
    (
        "1 create cold
1 put cold k 7
1 flush cold
1 drop cold
1 get cold k
1 put cold k 8
1 flush cold
1 compact cold
1 purge
1 release cold
1 get cold k
1 purge
",
        "lane 1
1 ok create 1
2 ok put 1
3 ok flush file 1 from 0 to 1
4 ok drop
5 found 7 cut 1 sv 4
6 refused 11 Dropped
7 refused 11 Dropped
8 refused 11 Dropped
9 ok purge
10 ok release
11 refused 7 NoFamily
12 ok purge 1
lane 1 uses 0 misses 0 swept 0
family 0 default live writes 0 files none
family 1 cold dropped writes 1 files none
made superversions 4 memtables 3 files 1
gone superversions 4 memtables 3 files 1
strays seen 0 gone 0
end clean
",
    ),
    (
        "1 create cold
1 put cold k 7
1 flush cold
1 drop cold
1 get cold k
1 put cold k 8
1 flush cold
1 release cold
1 get cold k
",
        "lane 1
1 ok create 1
2 ok put 1
3 ok flush file 1 from 0 to 1
4 ok drop
5 found 7 cut 1 sv 4
6 refused 11 Dropped
7 refused 11 Dropped
8 ok release
9 refused 7 NoFamily
lane 1 uses 0 misses 0 swept 0
family 0 default live writes 0 files none
family 1 cold dropped writes 1 files none
made superversions 4 memtables 3 files 1
gone superversions 4 memtables 3 files 1
strays seen 0 gone 0
end clean
",
    ),
    (
        "1 create a
1 create a
1 open a
1 open default
1 open b
1 release a
1 get a k
1 put a k v
1 release a
1 drop a
1 set a max_immutable 3
1 open a
1 drop a
1 drop a
1 create a
1 set a max_immutable 3
1 set a max_immutable 9
1 release a
1 create a
1 gets 1 a k
1 gets 1 b k
1 gets 1 a %
1 unsnap 0
1 create default
",
        "lane 1
1 ok create 1
2 refused 5 NameTaken
3 refused 8 AlreadyOpen
4 refused 8 AlreadyOpen
5 refused 7 NoFamily
6 ok release
7 refused 9 NotOpen
8 refused 9 NotOpen
9 refused 9 NotOpen
10 refused 9 NotOpen
11 refused 9 NotOpen
12 ok open 1
13 ok drop
14 refused 11 Dropped
15 refused 8 AlreadyOpen
16 refused 11 Dropped
17 refused 12 BadOption 9 1 8
18 ok release
19 ok create 2
20 refused 27 NoSnapshot
21 refused 7 NoFamily
22 refused 1 KeyLength 0
23 refused 27 NoSnapshot
24 refused 5 NameTaken
lane 1 uses 0 misses 0 swept 0
family 0 default live writes 0 files none
family 1 a dropped writes 0 files none
family 2 a live writes 0 files none
made superversions 3 memtables 3 files 0
gone superversions 3 memtables 3 files 0
strays seen 0 gone 0
end clean
",
    ),
    (
        "1 create hot
1 put hot k 1
1 put default k 2
1 get hot k
1 get default k
1 flush hot
1 flush default
1 put hot k 3
1 get hot k
1 get default k
1 compact hot
1 purge
",
        "lane 1
1 ok create 1
2 ok put 1
3 ok put 1
4 found 1 cut 1 sv 2
5 found 2 cut 1 sv 1
6 ok flush file 1 from 0 to 1
7 ok flush file 2 from 0 to 1
8 ok put 2
9 found 3 cut 2 sv 4
10 found 2 cut 1 sv 6
11 ok compact file 3 from 0 to 1
12 ok purge 1
lane 1 uses 0 misses 0 swept 0
family 0 default live writes 1 files 2
family 1 hot live writes 2 files 3
made superversions 7 memtables 4 files 3
gone superversions 7 memtables 4 files 1
strays seen 0 gone 0
end clean
",
    ),
];

#[test]
fn gives_each_report(rt: HostRuntime) -> Result<(), Fail> {
    let alloc = rt.alloc();
    for (script, report) in ROWS {
        expect_run(&rt, alloc, script.as_bytes(), 64, 0, report)?;
    }
    Ok(())
}

// The replies to 16 creates, and the families that there then are.
fn sixteen_report(alloc: Global) -> Result<String, AllocError> {
    let mut due = "lane 1\n".to_string(alloc)?;
    for id in 1..=15 {
        due.push_str(&format!(in alloc; "{id} ok create {id}\n")?)?;
    }
    due.push_str("16 refused 6 TooManyFamilies\nlane 1 uses 0 misses 0 swept 0\n")?;
    due.push_str("family 0 default live writes 0 files none\n")?;
    for id in 1..=15 {
        due.push_str(&format!(in alloc; "family {id} c{id} live writes 0 files none\n")?)?;
    }
    due.push_str("made superversions 16 memtables 16 files 0\n")?;
    due.push_str("gone superversions 16 memtables 16 files 0\n")?;
    due.push_str("strays seen 0 gone 0\nend clean\n")?;
    Ok(due)
}

#[test]
fn makes_no_family_too_many(rt: HostRuntime) -> Result<(), Fail> {
    let alloc = rt.alloc();
    let mut script = String::new(alloc);
    for id in 1..=16 {
        script.push_str(&format!(in alloc; "1 create c{id}\n")?)?;
    }
    let due = sixteen_report(alloc)?;
    expect_run(&rt, alloc, script.as_bytes(), 64, 0, due.as_str())
}
