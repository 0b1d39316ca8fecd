// The counts of a holder's numbers go up with the holder, and down with it.
ghost use Rattle.std.specs.Prelude.{◌≡◌, ℕ, ◌+◌, ◌<◌, ◌≤◌, ◌^◌, [], length, take, OnOk, OnErr};
ghost use Rattle.sv_model.specs.Counts.{count_of};
ghost use Rattle.sv_model.specs.Lists.{times, IsChosen};

use crate::counts::Counts;
use crate::faults::OutOfMemory;
use crate::holders::Holder;

// All its numbers count once more, or, where memory is short, none.
pub fn raise<T: Holder>(counts: &mut Counts, holder: &T) -> Result<(), OutOfMemory>
    requires { (n : ℕ) → count_of counts.old n + times n (T.numbers holder.now) < 2 ^ 64 }
    ensures ok { OnOk result ((n : ℕ) → count_of counts.new n ≡ count_of counts.old n + times n (T.numbers holder.now)) }
    ensures err { OnErr result ((n : ℕ) → count_of counts.new n ≡ count_of counts.old n) }
{
    for at in 0..holder.count() {
        let number = holder.number(at);
        match counts.up(number) {
            Ok(()) => {}
            Err(refused) => {
                forget(counts, holder, at);
                return Err(refused);
            }
        }
    }
    Ok(())
}

// The first so many of its numbers count once less.
pub fn forget<T: Holder>(counts: &mut Counts, holder: &T, upto: usize)
    requires within { upto ≤ length (T.numbers holder.now) }
    requires counted { (n : ℕ) → times n (take upto (T.numbers holder.now)) ≤ count_of counts.old n }
    ensures { (n : ℕ) → count_of counts.old n ≡ count_of counts.new n + times n (take upto (T.numbers holder.now)) }
{
    for at in 0..upto {
        let number = holder.number(at);
        counts.down(number);
    }
}

// All its numbers count once less. Answers, in the room made for them, those that nothing names any more.
pub fn lower<T: Holder>(counts: &mut Counts, holder: &T, room: T::Freed) -> T::Freed
    requires counted { (n : ℕ) → times n (T.numbers holder.now) ≤ count_of counts.old n }
    requires empty { T.handed room ≡ [] }
    requires enough { length (T.numbers holder.now) ≤ T.room room }
    ensures counts { (n : ℕ) → count_of counts.old n ≡ count_of counts.new n + times n (T.numbers holder.now) }
    ensures given { IsChosen (λ n. count_of counts.new n ≡ 0) (T.numbers holder.now) (T.handed result) }
{
    let mut freed = room;
    for at in 0..holder.count() {
        let number = holder.number(at);
        counts.down(number);
        let left = counts.count(number);
        if left == 0 {
            holder.give(at, &mut freed);
        }
    }
    freed
}
