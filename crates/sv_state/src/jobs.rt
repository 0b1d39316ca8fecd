// Holds, and what is handed out for removal.
ghost use Rattle.std.specs.Prelude.{◌≡◌, ◌<◌, ◌+◌, ◌-◌, ℕ, IfOk, OnErr, IsTrue, IsFalse, ◌↔◌, sum, slice_index};
ghost use Rattle.sv_model.specs.declared.records.FileStatus.TheVariants as status;
ghost use Rattle.sv_model.specs.Numbers.{AreInOrder, IsReady, IsRegistered, MarksOnly};
ghost use Rattle.sv_model.specs.Refusals.{Refuses, RefusesExactly};
ghost use Rattle.sv_files.specs.Calls.{IsFound, IsScanned, IsTaken, MayBeTaken, disabled, hold_refusal, ungrabbed, unhold_refusal, with_hold, without_holds};
ghost use Rattle.sv_state.specs.Follows.{Follows, OnlyFiles};

use crate::state::State;
use sv_model::{FileNumber, Refusal};

impl State {
    /// How many holds stand, over all lanes. Takes no memory.
    pub fn holds(&self) -> u32
        ensures { result ≡ sum self.now.books.files.holds }
    {
        self.objects.files.holds()
    }

    /// How many purges and scans are under way. Takes no memory.
    pub fn jobs(&self) -> u32
        ensures { result ≡ self.now.books.files.jobs }
    {
        self.objects.files.jobs()
    }

    /// One hold more of the lane, which is below 32. Answers its count after. Refused as `TooManyHolds` exactly where
    /// the lane has 255. Takes no memory.
    pub fn hold(&mut self, lane: u8) -> Result<u32, Refusal>
        requires { lane < 32 }
        ensures held { IfOk result (λ count. (count ≡ slice_index self.old.books.files.holds lane + 1) × (self.new.books.files ≡ with_hold self.old.books.files lane count)) }
        ensures refused { RefusesExactly (hold_refusal (slice_index self.old.books.files.holds lane)) result }
        ensures kept { OnErr result (self.new ≡ self.old) }
        ensures rest { OnlyFiles self.old self.new }
        ensures follows { Follows self.old.books self.new.books }
    {
        let held = self.objects.files.hold(lane);
        self.objects.files.laws();
        held
    }

    /// One hold less of the lane, which is below 32. Answers its count after. Refused as `NoHold` exactly where the
    /// lane has none. Takes no memory.
    pub fn unhold(&mut self, lane: u8) -> Result<u32, Refusal>
        requires { lane < 32 }
        ensures ended { IfOk result (λ count. (count + 1 ≡ slice_index self.old.books.files.holds lane) × (self.new.books.files ≡ with_hold self.old.books.files lane count)) }
        ensures refused { RefusesExactly (unhold_refusal (slice_index self.old.books.files.holds lane)) result }
        ensures kept { OnErr result (self.new ≡ self.old) }
        ensures rest { OnlyFiles self.old self.new }
        ensures follows { Follows self.old.books self.new.books }
    {
        let held = self.objects.files.unhold(lane);
        self.objects.files.laws();
        held
    }

    /// Ends the holds of all lanes. Takes no memory.
    pub fn end_holds(&mut self)
        ensures ended { self.new.books.files ≡ without_holds self.old.books.files }
        ensures rest { OnlyFiles self.old self.new }
        ensures follows { Follows self.old.books self.new.books }
    {
        self.objects.files.end_holds();
        self.objects.files.laws();
    }

    /// The Obsolete numbers below the bound, ascending; nothing changes. Refused as `Disabled` exactly where a hold
    /// stands.
    pub fn ready(&self) -> Result<Vec<FileNumber>, Refusal>
        ensures ready { IfOk result (λ found. AreInOrder (IsReady self.now.books.files) found.items) }
        ensures refused { Refuses (disabled self.now.books.files) result }
        ensures none { ((n : ℕ) → IsReady self.now.books.files n → ⊥) → RefusesExactly (disabled self.now.books.files) result }
    {
        self.objects.files.ready()
    }

    /// Takes one number for removal where it is Obsolete and below the bound and no hold stands: it is Grabbed, and one
    /// more job is under way. Answers whether it was taken; else nothing changes. Takes no memory.
    pub fn take(&mut self, number: FileNumber) -> bool
        requires { self.old.books.files.jobs < 32 }
        ensures exactly { IsTrue result ↔ MayBeTaken self.old.books.files number }
        ensures taken { IsTrue result → IsTaken number self.old.books.files self.new.books.files }
        ensures kept { IsFalse result → self.new ≡ self.old }
        ensures rest { OnlyFiles self.old self.new }
        ensures follows { Follows self.old.books self.new.books }
    {
        self.objects.files.take(number)
    }

    /// Hands out the Obsolete numbers below the bound, ascending: they are Grabbed, and one more job is under way.
    /// Refused as `Disabled` exactly where a hold stands. Takes no memory where there is no such number.
    pub fn find_obsolete(&mut self) -> Result<Vec<FileNumber>, Refusal>
        requires { self.old.books.files.jobs < 32 }
        ensures found { IfOk result (λ found. IsFound self.old.books.files self.new.books.files found.items) }
        ensures refused { Refuses (disabled self.old.books.files) result }
        ensures none { ((n : ℕ) → IsReady self.old.books.files n → ⊥) → RefusesExactly (disabled self.old.books.files) result }
        ensures kept { OnErr result (self.new ≡ self.old) }
        ensures rest { OnlyFiles self.old self.new }
        ensures follows { Follows self.old.books self.new.books }
    {
        self.objects.files.find_obsolete()
    }

    /// Hands out the Obsolete numbers below the bound and the strays of a listing, ascending: they are Grabbed, and one
    /// more job is under way. A stray is a listed number that is not registered, below the bound and below the next
    /// number; it is registered from then on. Refused as `Disabled` exactly where a hold stands.
    pub fn scan(&mut self, listed: &[FileNumber]) -> Result<Vec<FileNumber>, Refusal>
        requires { self.old.books.files.jobs < 32 }
        ensures found { IfOk result (λ found. IsScanned self.old.books.files self.new.books.files listed.now found.items) }
        ensures refused { Refuses (disabled self.old.books.files) result }
        ensures kept { OnErr result (self.new ≡ self.old) }
        ensures rest { OnlyFiles self.old self.new }
        ensures follows { Follows self.old.books self.new.books }
    {
        self.objects.files.scan(listed)
    }

    /// Takes back a Grabbed number: it is Gone where its file is, else Obsolete again. Takes no memory.
    pub fn ungrab(&mut self, number: FileNumber, gone: bool)
        requires { IsRegistered self.old.books.files.numbers number status.Grabbed }
        ensures marked { MarksOnly number status.Grabbed (ungrabbed gone) self.old.books.files self.new.books.files }
        ensures rest { OnlyFiles self.old self.new }
        ensures follows { Follows self.old.books self.new.books }
    {
        self.objects.files.ungrab(number, gone);
    }

    /// Ends a job. Takes no memory.
    pub fn end_job(&mut self)
        requires { 0 < self.old.books.files.jobs }
        ensures ended { self.new.books.files ≡ record self.old.books.files { jobs = self.old.books.files.jobs - 1 } }
        ensures rest { OnlyFiles self.old self.new }
        ensures follows { Follows self.old.books self.new.books }
    {
        self.objects.files.end_job();
        self.objects.files.laws();
    }
}
