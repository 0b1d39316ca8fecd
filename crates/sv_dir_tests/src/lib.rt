//! Tests of the directory of table files; nothing else stands here.
#![tactic(auto)]

#[cfg(test)]
mod tests {
    use std::alloc::Global;
    use std::process::Abort;
    use std::test::Fail as Failure;
    use sv_dir::{
        Dir, DirError, Fail, Found, How, MemDir, RealDir, Removal, file_name, parse_name,
    };
    use sv_model::FileNumber;

    #[test]
    fn names_are_written_and_read_back(rt: HostRuntime) {
        let named = [
            (1, "000001.sst"),
            (7, "000007.sst"),
            (999999, "999999.sst"),
            (1000000, "1000000.sst"),
            (1234567, "1234567.sst"),
            (999999999999, "999999999999.sst"),
        ];
        for (number, name) in named {
            let number = FileNumber(number);
            assert_eq!(rt; file_name(number).as_str(), name);
            assert_eq!(rt; parse_name(name), Some(number), "{name}");
        }
        // These are no number's names that are read back.
        assert_eq!(rt; file_name(FileNumber(0)).as_str(), "000000.sst");
        let longest = file_name(FileNumber(u64::MAX));
        assert_eq!(rt; longest.as_str(), "18446744073709551615.sst");
        let foreign = [
            "",
            ".sst",
            "7.sst",
            "00007.sst",
            "0000007.sst",
            "000000.sst",
            "000007.SST",
            "000007.ss",
            "000007",
            "000007.sst~",
            " 000007.sst",
            "+00007.sst",
            "-00007.sst",
            "00000a.sst",
            "01234567.sst",
            "0000000.sst",
            "1000000000000.sst",
            "18446744073709551615.sst",
            "000007.sst.sst",
            "MANIFEST",
        ];
        for name in foreign {
            assert_eq!(rt; parse_name(name), None, "{name}");
        }
    }

    fn is_failed<T>(answer: &Result<T, DirError>) -> bool {
        matches!(answer, Err(DirError::Failed))
    }

    // Whether the text was found, or nothing where there is no text.
    fn holds(answer: &Result<Found, DirError>, text: Option<&str>) -> bool {
        match (answer, text) {
            (Ok(Found::Bytes(bytes)), Some(text)) => bytes.as_slice() == text.as_bytes(),
            (Ok(Found::Absent), None) => true,
            _ => false,
        }
    }

    // The names, each followed by a blank.
    fn names_in<D: Dir>(alloc: Global, dir: &mut D) -> Result<String, Failure> {
        let mut line = String::new(alloc);
        for name in dir.list()? {
            line.push_str(name.as_str())?;
            line.push_str(" ")?;
        }
        Ok(line)
    }

    fn lists<D: Dir>(dir: &mut D, name: &str) -> Result<bool, Failure> {
        Ok(dir.list()?.iter().any(|listed| listed.as_str() == name))
    }

    // A directory of two files, of which one call fails.
    fn two_files(alloc: Global, call: u64, how: How) -> Result<MemDir, Failure> {
        let mut files = Vec::new(alloc);
        let notes = String::from_str(alloc, "notes")?;
        files.push((notes, b"n".to_vec(alloc)?))?;
        let first = String::from_str(alloc, "000001.sst")?;
        files.push((first, b"first".to_vec(alloc)?))?;
        let mut fails = Vec::new(alloc);
        fails.push(Fail { call, how })?;
        Ok(MemDir::new(alloc, files, fails)?)
    }

    // Lists, puts file 2, reads file 1 and removes it: calls 1 to 4. Exactly that one fails.
    fn four_calls<D: Dir>(rt: &impl Abort, dir: &mut D, fails: u64) {
        let listed = dir.list();
        assert!(rt; is_failed(&listed) == (fails == 1) && listed.is_ok() == (fails != 1));
        let put = dir.put(FileNumber(2), b"abc");
        assert!(rt; is_failed(&put) == (fails == 2) && put.is_ok() == (fails != 2));
        let read = dir.read(FileNumber(1));
        assert!(rt;
            is_failed(&read) == (fails == 3) && holds(&read, Some("first")) == (fails != 3)
        );
        let removed = dir.remove(FileNumber(1));
        assert!(rt; is_failed(&removed) == (fails == 4));
        assert!(rt; (removed == Ok(Removal::Removed)) == (fails != 4));
    }

    #[test]
    fn each_call_fails_as_it_is_told(rt: HostRuntime) -> Result<(), Failure> {
        let alloc = rt.alloc();
        let whole = Some("abc");
        let cases = [
            (0, How::After, whole, "000002.sst notes "),
            (1, How::Before, whole, "000002.sst notes "),
            (1, How::Half, whole, "000002.sst notes "),
            (1, How::After, whole, "000002.sst notes "),
            (2, How::Before, None, "notes "),
            (2, How::Half, Some("a"), "000002.sst notes "),
            (2, How::After, whole, "000002.sst notes "),
            (3, How::Before, whole, "000002.sst notes "),
            (3, How::Half, whole, "000002.sst notes "),
            (3, How::After, whole, "000002.sst notes "),
            (4, How::Before, whole, "000001.sst 000002.sst notes "),
            (4, How::Half, whole, "000001.sst 000002.sst notes "),
            (4, How::After, whole, "000002.sst notes "),
        ];
        for (call, how, second, names) in cases {
            let mut dir = two_files(alloc, call, how)?;
            four_calls(&rt, &mut dir, call);
            let left = names_in(alloc, &mut dir)?;
            assert_eq!(rt; left.as_str(), names, "call {call} fails by {how:?}");
            let read = dir.read(FileNumber(2));
            assert!(rt; holds(&read, second), "call {call} fails by {how:?}");
            assert_eq!(rt; dir.remove(FileNumber(9)), Ok(Removal::Absent));
        }
        Ok(())
    }

    #[test]
    fn a_folder_keeps_files(rt: HostRuntime) -> Result<(), Failure> {
        let alloc = rt.alloc();
        let here = String::from_str(alloc, ".")?;
        let mut dir = RealDir::new(rt, alloc, here);
        four_calls_on_a_file(&rt, &mut dir)?;
        let nowhere = String::from_str(alloc, "nowhere")?;
        let mut missing = RealDir::new(rt, alloc, nowhere);
        assert!(rt; is_failed(&missing.list()));
        assert!(rt; is_failed(&missing.put(FileNumber(1), b"abc")));
        assert!(rt; holds(&missing.read(FileNumber(1)), None));
        assert_eq!(rt; missing.remove(FileNumber(1)), Ok(Removal::Absent));
        Ok(())
    }

    fn four_calls_on_a_file<D: Dir>(rt: &impl Abort, dir: &mut D) -> Result<(), Failure> {
        assert!(rt; !lists(dir, "000007.sst")?);
        assert!(rt; holds(&dir.read(FileNumber(7)), None));
        assert_eq!(rt; dir.put(FileNumber(7), b"a long text"), Ok(()));
        assert!(rt; holds(&dir.read(FileNumber(7)), Some("a long text")));
        assert_eq!(rt; dir.put(FileNumber(7), b"text"), Ok(()));
        assert!(rt; holds(&dir.read(FileNumber(7)), Some("text")));
        assert!(rt; lists(dir, "000007.sst")?);
        assert_eq!(rt; dir.remove(FileNumber(7)), Ok(Removal::Removed));
        assert_eq!(rt; dir.remove(FileNumber(7)), Ok(Removal::Absent));
        assert!(rt; !lists(dir, "000007.sst")?);
        Ok(())
    }
}
