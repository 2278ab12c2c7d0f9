ghost use Rattle.std.specs.Prelude.{◌≡◌, ◌<◌, ◌≤◌, length, None, IfOk, IfSome, IsErrOf};
ghost use Rattle.io_edges.specs.Blind.{behind, blind_faults, blinded};
ghost use Rattle.io_edges.specs.Counts.{Rose, one_more};
ghost use Rattle.io_edges.specs.Reads.{Holds, IsAbsent, IsAnswered, IsMissed, IsNoted, IsOver};

use crate::{FileFault, Files};
use std::alloc::Global;

/// A store that passes its reads on to another one, and tells no contents, as a real one. It counts a fault at each file that is absent
/// and at each read that fails.
#[derive(Drop)]
pub struct Blind<F> {
    inner: F,
    faults: u64,
}

impl<F> Blind<F> {
    fn count_fault(&mut self)
        ensures behind { behind self.new ≡ behind self.old }
        ensures faults { blind_faults self.new ≡ one_more (blind_faults self.old) }
        ensures rises { blind_faults self.old ≤ blind_faults self.new }
    {
        self.faults = self.faults.saturating_add(1);
    }
}

impl<F: Files> Blind<F> {
    pub fn new(inner: F) -> Blind<F>
        ensures behind { behind result ≡ inner }
        ensures faults { blind_faults result ≡ 0 }
    {
        Blind { inner, faults: 0 }
    }

    pub fn faults(&self) -> u64
        ensures { result ≡ blind_faults self.now }
    {
        self.faults
    }
}

impl<F: Files> Files for Blind<F> {
    ghost store = { λ s. blinded (blind_faults s) (F.store (behind s)) };

    fn read_file(&mut self, alloc: Global, name: &str, limit: u64) -> Result<Vec<u8>, FileFault>
        ensures kept { (blinded (blind_faults self.new) (F.store (behind self.new))).contents
            ≡ (blinded (blind_faults self.old) (F.store (behind self.old))).contents }
        ensures faults { blind_faults self.old ≤ blind_faults self.new }
        ensures reads { (F.store (behind self.old)).reads ≤ (F.store (behind self.new)).reads }
        ensures noted { IsNoted name.now limit (F.store (behind self.old)).reads (F.store (behind self.new)).reads
            (F.store (behind self.new)).last result }
        ensures fits { IfOk result (λ v. length v.items ≤ limit) }
        ensures bytes { IfOk result (λ v. Holds None name.now v.items) }
        ensures absent { IsErrOf result FileFault.Absent
            → IsAbsent None name.now (Rose (blind_faults self.old) (blind_faults self.new)) }
        ensures too_big { IsErrOf result FileFault.TooBig
            → IfSome (F.store (behind self.new)).last (λ read. limit < read.taken) }
        ensures too_big_told { IsErrOf result FileFault.TooBig → IsOver None name.now limit }
        ensures failed { IsErrOf result FileFault.Failed → Rose (blind_faults self.old) (blind_faults self.new) }

        // The store behind it answers.
        ensures passed { IsAnswered name.now limit (F.store (behind self.old)) (F.store (behind self.new)) result }

        // A fault comes at each file that is absent and each read that fails, and nowhere else.
        ensures rises { IsMissed result → blind_faults self.new ≡ one_more (blind_faults self.old) }
        ensures stands { ¬ IsMissed result → blind_faults self.new ≡ blind_faults self.old }
    {
        match self.inner.read_file(alloc, name, limit) {
            Ok(bytes) => Ok(bytes),
            Err(FileFault::Absent) => {
                self.count_fault();
                Err(FileFault::Absent)
            }
            Err(FileFault::Failed) => {
                self.count_fault();
                Err(FileFault::Failed)
            }
            Err(FileFault::TooBig) => Err(FileFault::TooBig),
            Err(FileFault::NoMemory) => Err(FileFault::NoMemory),
        }
    }
}
